//! Levels one below another: `specs/Arrays.antt` says when each is finished and has the positions of the level above as parents, as those
//! of packed tensors have.
#![tactic(auto)]

mod parents;

pub use parents::positions_of;
