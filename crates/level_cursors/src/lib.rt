//! Cursors over the entries below a parent of a level, as kernels have them: the code that starts a cursor, finds the child of a
//! coordinate, and steps past it, and the code that locates a coordinate at once. All of it is made of the fragments of
//! `level_core` and proved over its trait alone, for every kind of level whose coordinates are stored in increasing order, groups
//! of equal coordinates taken as a whole. `specs/Cursors.antt` says what it is that a cursor stands before entries;
//! `specs/Ranges.antt` has the cursor over a whole range, `specs/Located.antt` the search at once.
#![tactic(auto)]

mod codes;
mod cursor;
mod located;
mod ranges;

pub use codes::no_coordinate;
pub use cursor::{CursorSite, find_at, start_cursor, step_past};
pub use located::locate_at;
pub use ranges::{start_range, step_range};
