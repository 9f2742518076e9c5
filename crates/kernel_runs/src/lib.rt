//! A statement computed whole by its kernel: from the ranges that words give and the operands that were read, packed in their formats,
//! to the entries of the result. `specs/Runs.antt` says what a run leaves, and why there is none; `specs/Given.antt` says both of a kernel
//! of which nothing is known.
#![tactic(auto)]

mod fault;
mod given_runs;
mod laws;
mod planned_runs;
mod results;
mod running;
mod runs;

pub use fault::{GivenFault, RunFault};
pub use given_runs::run_given;
pub use laws::operands_have_one_count;
pub use planned_runs::run_planned;
pub use runs::{KernelRun, run_kernel};
