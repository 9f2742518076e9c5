//! Why a statement isn't computed by its kernel, or by one that is given.
ghost use Rattle.std.specs.Prelude.{◌≡◌};
ghost use Rattle.kernel_runs.specs.Refused.{of_place};

use expr_terms::RangeFault;
use kernel_code::Place;
use operand_packing::{LargeLevel, PackFault};
use std::alloc::AllocError;

/// Why a statement isn't computed over its operands.
#[derive(Debug, Drop)]
pub enum RunFault {
    /// A variable has no range, or two, or a coordinate is above it: the first fault in standing order of the variables. It
    /// is never the fault of memory.
    Range(RangeFault),
    /// A level would have more positions than may be. Of operands it is the first such level of the first such operand; the result
    /// comes behind them.
    SizeLimit(LargeLevel),
    /// The workspace of a result that isn't dense would need more pairs than may be, so many.
    Workspace { count: u128 },
    /// Want of memory.
    Memory(AllocError),
}

/// The refusal of a growth at a place of the result, which is tensor 0, to so many positions or pairs.
pub(crate) fn large(place: Place, count: u128) -> RunFault
    ensures { result ≡ of_place place count }
{
    match place {
        Place::Level(level) => RunFault::SizeLimit(LargeLevel {
            tensor: 0,
            level,
            count,
        }),
        Place::Workspace => RunFault::Workspace { count },
    }
}

impl From<AllocError> for RunFault {
    ghost use Rattle.std.specs.Prelude.{◌≡◌};
    ghost use Rattle.kernel_runs.specs.declared.fault.RunFault.TheVariants as run_faults;

    ghost from_gives = { λ error fault. fault ≡ run_faults.Memory error };

    fn from(error: AllocError) -> RunFault {
        RunFault::Memory(error)
    }
}

impl From<RangeFault> for RunFault {
    ghost use Rattle.std.specs.Prelude.{◌≡◌};
    ghost use Rattle.kernel_runs.specs.Refused.{of_ranges};

    ghost from_gives = { λ refusal fault. fault ≡ of_ranges refusal };

    fn from(refusal: RangeFault) -> RunFault {
        match refusal {
            RangeFault::Memory(error) => RunFault::Memory(error),
            other => RunFault::Range(other),
        }
    }
}

impl From<PackFault> for RunFault {
    ghost use Rattle.std.specs.Prelude.{◌≡◌};
    ghost use Rattle.kernel_runs.specs.Refused.{of_packing};

    ghost from_gives = { λ refusal fault. fault ≡ of_packing refusal };

    fn from(refusal: PackFault) -> RunFault {
        match refusal {
            PackFault::SizeLimit(large) => RunFault::SizeLimit(large),
            PackFault::Memory(error) => RunFault::Memory(error),
        }
    }
}

/// Why a statement isn't computed by a kernel of which nothing is known.
#[derive(Debug, Drop)]
pub enum GivenFault {
    /// What refuses the run of any kernel: the ranges, a level, the workspace, or want of memory.
    Run(RunFault),
    /// The run can't go on at this statement, counted from 1 in the order of first lines.
    Trap { statement: u64 },
    /// The run would take more turns than it may.
    Budget,
    /// The run ends, and what it leaves of the result is no storage of its format.
    BadStore,
}

impl From<AllocError> for GivenFault {
    ghost use Rattle.std.specs.Prelude.{◌≡◌};
    ghost use Rattle.kernel_runs.specs.declared.fault.GivenFault.TheVariants as given_faults;
    ghost use Rattle.kernel_runs.specs.declared.fault.RunFault.TheVariants as run_faults;

    ghost from_gives = { λ error fault. fault ≡ given_faults.Run (run_faults.Memory error) };

    fn from(error: AllocError) -> GivenFault {
        GivenFault::Run(RunFault::Memory(error))
    }
}

impl From<RangeFault> for GivenFault {
    ghost use Rattle.std.specs.Prelude.{◌≡◌};
    ghost use Rattle.kernel_runs.specs.Refused.{of_ranges};
    ghost use Rattle.kernel_runs.specs.declared.fault.GivenFault.TheVariants as given_faults;

    ghost from_gives = { λ refusal fault. fault ≡ given_faults.Run (of_ranges refusal) };

    fn from(refusal: RangeFault) -> GivenFault {
        GivenFault::Run(RunFault::from(refusal))
    }
}

impl From<PackFault> for GivenFault {
    ghost use Rattle.std.specs.Prelude.{◌≡◌};
    ghost use Rattle.kernel_runs.specs.Refused.{of_packing};
    ghost use Rattle.kernel_runs.specs.declared.fault.GivenFault.TheVariants as given_faults;

    ghost from_gives = { λ refusal fault. fault ≡ given_faults.Run (of_packing refusal) };

    fn from(refusal: PackFault) -> GivenFault {
        GivenFault::Run(RunFault::from(refusal))
    }
}
