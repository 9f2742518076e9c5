//! The levels that are found at a loop: the cursors over the entries of those whose coordinates stand in order, and over scratch lists
//! into which those of others are gathered before the loop, and the code that finds the rest at a coordinate. `specs/Walked.antt` says
//! which levels have cursors, `specs/Made.antt` which cursors these are, `specs/Listed.antt` what gathering does, and
//! `specs/Found.antt` what it is that the levels of a loop are found.
#![tactic(auto)]

mod cursor;
mod cursors;
mod finding;
mod gathering;
mod reading;

pub use cursor::{LoopCursor, SeekCursor};
pub use cursors::{SeekCursors, cursors_of, walked};
pub use finding::{Found, find_rest};
pub use gathering::{Gathered, gather_lists};
