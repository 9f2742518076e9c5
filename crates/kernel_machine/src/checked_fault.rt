//! Why a kernel of which nothing is known has no result.
use kernel_code::Place;

/// Why a kernel of which nothing is known has no result.
#[derive(Clone, Copy, Debug, PartialEq, Eq, Drop)]
pub enum CheckedFault {
    /// The run can't go on at this statement, counted from 1 in the order of first lines.
    Trap { statement: u64 },
    /// The run would take more turns than it may.
    Budget,
    /// A level or a workspace would have more positions or pairs than may be, so many.
    SizeLimit { place: Place, count: u128 },
    /// The run ends, and what it leaves of the result is no storage of its format.
    BadStore,
    /// Memory is wanted.
    Memory,
}
