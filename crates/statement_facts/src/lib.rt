//! What every store of a statement keeps: which sizes of levels are ranges of variables, and below which ranges coordinates are. Passes
//! over kernels use it (`store_facts`); `specs/Facts.antt` says when such facts are true of a statement and formats.
#![tactic(auto)]

mod alone;
mod facts;

pub use facts::store_facts;
