//! A box and a list that contracts see as what they hold. A syntax tree made of them has no place in
//! memory and no capacity in its value, so that two equal trees are equal in a clause, a copy is provably
//! its source, and a parse or a kernel read back can be compared with what a definition says.
//! The files of `specs/formers` let a type reach itself through them.
#![tactic(auto)]

mod boxed;
mod items;

pub use boxed::Boxed;
pub use items::Items;
