//! Cursors over the entries below a parent of a level that has them in any order of positions, as a hashed one: `gather_entries` makes the
//! code that leaves them in a scratch list, sorted by coordinates, and `ListCursor` goes over such a list in a merged loop. The code is
//! made of the fragments of `level_core` and proved over its trait alone. `specs/Gathered.antt` says what gathering does, `specs/Rows.antt`
//! what a list holds, `specs/InOrder.antt` what entries in order are, and `specs/ListCursors.antt` what the code of the cursor does.
#![tactic(auto)]

mod codes;
mod cursor;
mod gathering;
mod places;

pub use cursor::ListCursor;
pub use gathering::{LevelSite, gather_entries};
