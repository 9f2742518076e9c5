//! Merged loops: a loop over a variable turns once for each coordinate that some of its cursors has, in increasing order, and ends
//! at the variable's range. Each cursor that has the coordinate finds its child, then the body is run, then they step. `Cursor` is
//! what a loop asks of its cursors: those over the entries of a level, and those over a whole range, are both.
//! `specs/Merges.antt` says what the loop does; it names no code and no kind of level, and the body is any code that adds rows to
//! a sink.
#![tactic(auto)]

mod cursor;
mod either;
mod merging;
mod pieces;
mod sides;

pub use cursor::Cursor;
pub use merging::{below_range, merged_loop, ranged_loop};
pub use pieces::{LevelCursor, RangeCursor};
pub use sides::EitherCursor;
