//! The iteration graph of a statement: its variables, and edges that say which loop is outside which. `specs/Graphs.antt`
//! says what the loop order is, and which cycle is named where there is none.
#![tactic(auto)]

mod accesses;
mod first;
mod laws;
mod loops;

pub use accesses::{edges, edges_of_access};
pub use laws::{edges_lead_forward, edges_lead_round_a_cycle};
pub use loops::{OrderFault, order};
