//! Growable buffers of plain values over raw memory, from an allocator that may refuse.
//!
//! A `Segment` is a list, and a `Twin` two lists of equal length. Beside its elements each has a number `spare`: so
//! many can be pushed before memory is wanted again. `reserve` is the call that may be refused, and a push is none.
//! `Words` is a list of numbers, each in four bytes or each in eight.
//! Only the module `raw` touches memory, in six small functions that are proved by hand; all else is safe code.
#![tactic(auto)]

mod raw;
mod segment;
mod twin;
mod words;

// A crate can name a segment in a contract only if the types of its fields are exported.
#[doc(hidden)]
pub use raw::{Base, Deed, Places};
pub use segment::Segment;
pub use twin::Twin;
#[doc(hidden)]
pub use words::Form;
pub use words::{Lent, Words};
