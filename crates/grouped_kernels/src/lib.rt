//! When a kernel is right whose result is appended to out of workspaces that stand inside its outer loops: lemmas alone, and no code.
//! `specs/Workspaces.antt` says what such a workspace has to be, and `specs/Kernels.antt` what the code has to do, and that it then appends
//! rows that have the sums of those that the loops add.
#![tactic(auto)]
