//! Kernels whose variables are numbered from 0 on, without holes, in the order in which they first stand in the text.
//! `specs/Numbers.antt` says how the variables of a run are tied to those of another by a list of names, and `number_variables` makes
//! such a kernel.
#![tactic(auto)]

mod appearances;
mod exprs;
mod kernels;
mod refusal;
mod statements;
mod table;

pub use kernels::number_variables;
