//! Kernels in which what stands behind a choice, or right before it, is taken into its bodies where that settles it there.
//! `specs/Alike.antt` says when code does the same as other code, `specs/Leads.antt` when statements before a choice may stand in its
//! bodies, and `thread_choices` makes such a kernel.
#![tactic(auto)]

mod counting;
mod exprs;
mod kernels;
mod leading;
mod leads;
mod live;
mod threads;

pub use kernels::thread_choices;
