//! What a statement means: its terms, the ranges of its variables, and its value at each point of the left side,
//! as `specs/` define them. `value_at` computes the value plainly and slowly, straight from the definition.
#![tactic(auto)]

mod bound;
mod expansion;
mod group;
mod grouping;
mod lookups;
mod minus;
mod names;
mod nested;
mod range;
mod range_fault;
mod term;
mod value;

pub use bound::{Bound, Place, places_in};
pub use expansion::expand;
pub use group::{Group, Groups};
pub use grouping::groups;
pub use lookups::coords_at;
pub use minus::has_meaning;
pub use names::{NameFault, check_names};
pub use nested::flat;
pub use range::ranges;
pub use range_fault::RangeFault;
pub use term::{Term, own_variables, stands_in, terms};
pub use value::{set_point, value_at};
