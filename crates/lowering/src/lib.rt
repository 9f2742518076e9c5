//! A concrete statement lowered to loops over the levels of its tensors. `specs/Layouts.antt` says which levels the accesses
//! of a statement have, `specs/Held.antt` when what is stored of them is what the operands tell, `specs/Lowered.antt` what
//! the loops of a concrete statement are, and `lower` makes them.
#![tactic(auto)]

mod lowering;
mod seeking;
mod sums;

pub use lowering::lower;
