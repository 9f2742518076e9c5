use std::alloc::AllocError;

/// Why a variable has no range. Variables are settled in standing order, and for each variable these are tried
/// in this order.
#[derive(Debug, Drop)]
pub enum RangeFault {
    /// The variable has no word and no place on the right side.
    NoRange {
        var: usize,
    },
    /// The variable's first exact range, in the order word and then places in text order, and the first other.
    RangeConflict {
        var: usize,
        first: u64,
        other: u64,
    },
    /// The tensor of the variable's first place whose greatest coordinate, counted from 1, is above the exact
    /// range; this coordinate, and the range.
    OutOfRange {
        tensor: usize,
        coordinate: u64,
        range: u64,
    },
    /// Want of memory.
    Memory(AllocError),
}

impl From<AllocError> for RangeFault {
    ghost use Rattle.std.specs.Prelude.{◌≡◌};
    ghost use Rattle.expr_terms.specs.declared.range_fault.RangeFault.TheVariants as range_faults;

    ghost from_gives = { λ error fault. fault ≡ range_faults.Memory error };

    fn from(error: AllocError) -> RangeFault {
        RangeFault::Memory(error)
    }
}
