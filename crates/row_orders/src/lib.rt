//! How a result takes the rows that the loops of a statement come by: in place, or through a workspace. `specs/Takings.antt` says where
//! a statement calls for a workspace, and `specs/Orders.antt` in which order the rows come elsewhere: that of the result's storage.
#![tactic(auto)]

mod heads;
mod takings;

pub use heads::{has_unordered, head_length};
pub use takings::{Taking, calls_for_workspace, is_inside_sum, taking_of};
