//! The generated workload, run: `A(i,j) = B(i,j) * C(i,j) + D(i,j)` over drawn matrices, all in format `ds`. `specs/Generated.antt` says
//! which matrices are drawn, and `specs/Workloads.antt` what is told of the run.
#![tactic(auto)]

mod computing;
mod draws;
mod statement;
mod telling;
mod tensors;

pub use telling::run_workload;
