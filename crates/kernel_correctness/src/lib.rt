//! What a kernel is run on and what it is to leave: stores, their arrays, and when a kernel is right for a statement and formats, or
//! sound. `specs/Stores.antt` has the stores, `specs/Results.antt` what is left, `specs/Kernels.antt` the kernels. There is no code here.
#![tactic(auto)]
