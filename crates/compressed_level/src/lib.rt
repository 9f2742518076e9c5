//! Compressed levels: the coordinates of each parent stand one after another in a list, and a second list
//! tells where they end. `specs/Compressed.antt` has the rules.
#![tactic(auto)]

mod appending;
mod code;
mod compressed;
mod kind;
mod made;
mod reading;
mod sums;

pub use compressed::CompressedLevel;
