//! Singleton levels: each position of the level above has one coordinate, at the same position, and they stand in a list.
//! `specs/Singleton.antt` has the rules.
#![tactic(auto)]

mod appending;
mod kind;
mod reading;
mod singleton;

pub use singleton::SingletonLevel;
