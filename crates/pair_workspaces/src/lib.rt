//! A workspace whose rows are pairs of coordinates and a value, of any number of coordinates, in arrays that grow. `specs/Sinks.antt` says
//! what it is as a place where rows go, `specs/Drained.antt` what it is as a workspace that is drained.
#![tactic(auto)]

mod drained;
mod sink;

pub use sink::PairSink;
