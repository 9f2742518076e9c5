//! Whether the words that a kernel left make a level: each kind of level has its call here, which says so exactly. No sum wraps: one that
//! passes the limit makes no level. `specs/Found.antt` says what is asked of a slot, `specs/Widths.antt` how wide blocks are.
#![tactic(auto)]

mod blocks;
mod compressed;
mod coordinates;
mod dense;
mod hashed;
mod singleton;
mod words;

pub use words::{is_level, level_positions, may_ask};
