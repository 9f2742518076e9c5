//! When a kernel is right whose result is appended in place: lemmas alone, and no code. `specs/Ended.antt` says what the arrays are once
//! all rows are appended and each level's last parent has its positions; `specs/Kernels.antt` what a kernel's code has to do, from the
//! loops that append rows to the levels' ends, and that it then leaves the statement's result.
#![tactic(auto)]
