//! Loops whose rows are grouped by the coordinates of their outer loops: at each point of those, the rows are summed in a workspace and the
//! sums drained into an outer sink. `specs/Grouped.antt` says what such a sink holds, and `specs/Emitted.antt` what is asked of the rows.
#![tactic(auto)]

mod emitting;
mod grouped;

pub use emitting::emit_grouped;
pub use grouped::Grouped;
