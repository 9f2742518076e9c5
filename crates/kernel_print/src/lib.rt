//! Kernels as text. `specs/Text.antt` has the text of a kernel by cases on its syntax, and `put_kernel` appends it.
#![tactic(auto)]

mod exprs;
mod indents;
mod kernels;
mod laws;
mod names;
mod statements;

pub use kernels::put_kernel;
pub use laws::texts_tell_kernels;
