//! Dense levels: every coordinate below the range stands below each parent, in order, and its position
//! follows from the parent's. `specs/Dense.antt` says what such a level holds, and `specs/Code.antt` what
//! its fragments are.
#![tactic(auto)]

mod code;
mod dense;
mod inserting;
mod kind;
mod reading;

pub use dense::DenseLevel;
