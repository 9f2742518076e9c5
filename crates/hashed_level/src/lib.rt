//! Hashed levels: each parent has a block of slots, and a coordinate stands in the first free one from where it
//! is sought. `specs/Slots.antt` says what a block is and how a coordinate is sought there, and
//! `specs/Hashed.antt` what a level of such blocks holds.
#![tactic(auto)]

mod code;
mod hashed;
mod inserting;
mod kind;
mod reading;
mod slots;
mod widths;

pub use hashed::HashedLevel;
pub use slots::coordinate_of;
