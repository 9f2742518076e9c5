//! Kernels that use what every store of a statement keeps: that the size of a level is the range of a variable, and that the coordinates
//! of a level are below it. `specs/Facts.antt` says what is known, `sizes_as_ranges` reads ranges in place of sizes, and
//! `loops_by_position` has loops end with their positions.
#![tactic(auto)]

mod facts;
mod loads;
mod loops;
mod names;
mod sizes;

pub use facts::StoreFact;
pub use loops::loops_by_position;
pub use sizes::sizes_as_ranges;
