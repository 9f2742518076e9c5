//! Code that does the same with what is known along it put in: constants, copies, and tests that are settled.
//! `specs/Facts.antt` says what is known at a place, `specs/Passing.antt` when code passes for other code where that is known.
#![tactic(auto)]

mod apart;
mod choices;
mod exprs;
mod facts;
mod flow;
mod guesses;
mod kernels;
mod learning;
mod marks;
mod policy;
mod rewriting;

pub use kernels::propagate;
