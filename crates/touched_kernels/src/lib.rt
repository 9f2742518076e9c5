//! Code that sums up a workspace of one key in its list, and when a kernel is right whose result is filled from such a workspace.
//! `specs/Sums.antt` says what the code leaves, `specs/Kernels.antt` what a kernel's code has to do.
#![tactic(auto)]

mod sums;

pub use sums::sum_touched;
