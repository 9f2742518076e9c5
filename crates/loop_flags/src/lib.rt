//! Code over whole loop trees: expressions that tell whether a part of the terms below remains where the loops around stand,
//! whether that part is full at a loop, and whether an access stands in it; and code that leaves out the accesses that stand in
//! no part that remains. `specs/Pruned.antt` says what the code leaves, `specs/Flags.antt` what flags tell of what is made of
//! parts, and `specs/Liveness.antt` what it is that an access is never left out alone.
#![tactic(auto)]

mod flags;
mod liveness;
mod partly;
mod pruning;
mod remaining;
mod staying;
mod told;

pub use liveness::{live_flag, sum_flag};
pub use pruning::{Pruned, prune};
pub use remaining::{fullness_below, remains_of};
