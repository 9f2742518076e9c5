//! Workspaces that are drained: the trait `DrainedWorkspace`, over what keeps the rows, and code that drains one into a sink.
//! `specs/Draining.antt` says what is seen of such a workspace and what its code does, `specs/Drained.antt` what the loop does.
#![tactic(auto)]

mod drain;
mod workspace;

pub use drain::drain_into;
pub use workspace::DrainedWorkspace;
