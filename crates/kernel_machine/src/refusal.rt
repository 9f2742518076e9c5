//! Why a kernel isn't run, or its run has no result.
use kernel_code::Place;

/// Why a kernel isn't run, or its run has no result.
#[derive(Clone, Copy, Debug, PartialEq, Eq, Drop)]
pub enum RunRefusal {
    /// A level or a workspace would have more positions or pairs than may be, so many.
    SizeLimit { place: Place, count: u128 },
    /// Memory is wanted, or a run would take more than 2^64 - 1 turns of its loops.
    Memory,
}
