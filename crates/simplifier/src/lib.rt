//! Smaller kernels that do the same. `specs/Same.antt` says when code does the same as other code, `specs/Folded.antt` what isn't
//! left in simple code, and `simplify` makes a kernel simple.
#![tactic(auto)]

mod alike;
mod code;
mod exprs;
mod kernels;
mod steps;
mod words;

pub use alike::{is_number, same_expr};
pub use exprs::simplify_expr;
pub use kernels::simplify;
