//! Tensors made of the arrays that a kernel leaves: level by level, the words of each, and then the values. `specs/Made.antt` says which
//! levels have such words, and `specs/Building.antt` what has to be known of them. What kind a level is of is asked nowhere here.
#![tactic(auto)]

mod builder;
mod paths;
mod sizes;

pub use builder::Builder;
pub use sizes::level_sizes;
