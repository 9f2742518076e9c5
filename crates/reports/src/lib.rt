//! What is printed of a kernel, of its run, and of a generated workload, text by text to an output. `specs/Reports.antt` has these texts
//! and their lines.
#![tactic(auto)]

mod heading;
mod kernels;
mod plans;
mod runs;
mod turns;
mod workload;
mod workloads;

pub use kernels::print_kernel_report;
pub use plans::print_plan;
pub use runs::print_run_report;
pub use turns::put_turns;
pub use workload::Workload;
pub use workloads::print_workload;
