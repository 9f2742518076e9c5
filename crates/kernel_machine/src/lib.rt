//! Kernels run on packed operands. `prepare` lends the operands to a machine and begins the arrays of the result, `run` does what the
//! meaning of kernels says, and hands the result's arrays over as a tensor. `specs/Begins.antt` says what stands ready, `specs/Runs.antt`
//! how a run ends.
//!
//! What others may rely on: where `prepare` answers `Ok(p)`, `IsReadyFor arithmetic kernel store p` tells that the machine's state is
//! `start_state kernel given` for arrays `given` with `IsGiven zero store given`; `run` of a kernel that is sound on the store ends with
//! what `go arithmetic order kernel given` says within 2^64 - 1 turns.
#![tactic(auto)]

mod checked_fault;
mod checking;
mod handing;
mod prepared;
mod preparing;
mod refusal;
mod running;
mod sizes;

pub use checked_fault::CheckedFault;
pub use checking::run_checked;
pub use prepared::Prepared;
pub use preparing::prepare;
pub use refusal::RunRefusal;
pub use running::run;
