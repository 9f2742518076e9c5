//! A workspace whose rows have one coordinate. Where the coordinate's range isn't large, rows add to an array of sums, and a second
//! workspace lists the coordinates that were touched; else the rows themselves are listed. `specs/Touched.antt` says what the arrays
//! hold, `specs/Sinks.antt` what such a workspace is as a place where rows go, and `specs/Drains.antt` that both ways leave the same sums.
#![tactic(auto)]

mod drained;
mod drains;
mod sink;
mod sizes;
mod starts;

pub use drains::{empty_touched, rows_wait, take_next, take_row};
pub use sink::TouchedSink;
pub use sizes::{GREATEST_MARKED_RANGE, greatest_range_of_marks};
pub use starts::begin_touched;
