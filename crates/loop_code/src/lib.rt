//! Loops that say how the tensors of a statement are gone through. `specs/Loops.antt` says which rows loops add,
//! `specs/Places.antt` when each access is found level by level, `specs/Parts.antt` which parts of the terms remain below a
//! coordinate, and `specs/Turns.antt` how many turns merged loops make.
#![tactic(auto)]

mod loops;

pub use loops::{LoopCode, Seek};
