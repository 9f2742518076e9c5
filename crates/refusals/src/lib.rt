//! Why a command ends without its result, with the status and the line of each such fault. `specs/Lines.antt` says them.
#![tactic(auto)]

mod fault;
mod line;

pub use fault::{Fault, KernelFault, NamedFault};
pub use line::put_line;
