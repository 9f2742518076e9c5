//! Lists of a tensor's entries: coordinates, counted from 0, and a value. The tensor that a list stands for
//! adds the values of equal coordinates, and does not depend on the order of the list: `specs/Entries.antt`
//! defines it, and `proofs/Lemmas.antt` has what follows. Values are added as a
//! `Semiring` says; the calls of `numbers` stand here too.
#![tactic(auto)]

mod columns;
mod coords;
mod entries;
mod entry_list;
mod pair_entry;
mod rows;
mod shape;
mod sorted_rows;
mod whole_entry;

pub use coords::Coords;
pub use entries::Entries;
pub use numbers::{Ring, Semiring, add, mul, signed, sub};
pub use shape::Shape;
