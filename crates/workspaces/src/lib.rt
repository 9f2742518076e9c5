//! The list of pairs that a result goes through where it can't be built in place: pairs of coordinates and a value
//! are added in any order, and drained as sums in increasing order of their coordinates. `specs/Workspaces.antt`
//! says what the sums of pairs are, and `proofs/SumsOfPairs.antt` that there is one row of them. What is added are values of parts of an
//! expression at points where they are present: `specs/Presence.antt` says which parts are, and `presence` tells.
#![tactic(auto)]

mod coord_workspace;
mod parts;

pub use coord_workspace::{AddFault, CoordWorkspace};
pub use parts::presence;
