//! The arrays with which a kernel's run starts: operands and the ranges of full levels of the result are
//! lent, the arrays of the result's levels are begun, and workspaces and scratch
//! lists are empty. `specs/Begun.antt` says which arrays each step makes, and the laws tell what a machine holds then.
#![tactic(auto)]

mod empty;
mod operands;
mod result;
mod scratch;

pub use operands::lent_operands;
pub use result::{begin_result, sizes_lent};
pub use scratch::begin_scratch;
