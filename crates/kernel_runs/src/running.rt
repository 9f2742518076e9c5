//! A kernel run on packed operands.
ghost use Rattle.std.specs.Prelude.{◌≡◌, ◌≤◌, ℕ, All, length, IfErr, MatchResult};
ghost use Rattle.limits.specs.Limits.{greatest_position_count};
ghost use Rattle.numbers.specs.Arithmetic.{Arithmetic};
ghost use Rattle.kernel_code.specs.declared.syntax.Kernel.{Kernel as AKernel};
ghost use Rattle.level_core.specs.Meaning.{Arrays};
ghost use Rattle.storage_arrays.specs.Arrays.{AreDone};
ghost use Rattle.kernel_correctness.specs.Kernels.{IsSoundOn};
ghost use Rattle.kernel_correctness.specs.Stores.{Store as AStore, IsGiven};
ghost use Rattle.kernel_machine.specs.Begins.{store_of, IsBeginRefusal};
ghost use Rattle.kernel_machine.specs.Runs.{IsRunRefusal};
ghost use Rattle.kernel_runs.specs.Steps.{CanBegin, EndsOn, RefusedOn};

use crate::fault::{RunFault, large};
use format_spec::Format;
use kernel_code::{Kernel, Turns};
use kernel_machine::{RunRefusal, prepare, run};
use numbers::Semiring;
use std::alloc::{AllocError, Global};
use tensor_storage::Tensor;

/// A refusal of the machine as that of a run. The result is tensor 0.
fn fault_of(refusal: RunRefusal) -> RunFault
    ensures begin { (a : Arithmetic) (kernel : AKernel) (store : AStore) → IsBeginRefusal store refusal → RefusedOn a kernel store result }
    ensures run { (a : Arithmetic) (kernel : AKernel) (store : AStore) (given : Arrays) → CanBegin store → IsGiven a.zero store given
        → IsRunRefusal a kernel store given refusal → RefusedOn a kernel store result }
{
    match refusal {
        RunRefusal::Memory => RunFault::Memory(AllocError),
        RunRefusal::SizeLimit { place, count } => large(place, count),
    }
}

/// Runs a kernel on packed operands, which are lent, with these ranges of its variables and a result of this format.
pub(crate) fn run_on<S: Semiring>(
    alloc: Global,
    kernel: &Kernel,
    format: Format,
    operands: &[Tensor],
    ranges: &[u64],
) -> Result<(Tensor, Turns), RunFault>
    requires enough { length format ≤ length ranges.now }
    requires small { All (λ range. range ≤ greatest_position_count) ranges.now }
    requires done { All (λ t. AreDone 1 t.levels) operands.now }
    requires sound { CanBegin (store_of ranges.now operands.now format)
        → IsSoundOn S.arithmetic kernel.now (store_of ranges.now operands.now format) }
    ensures { MatchResult result (λ r. EndsOn S.arithmetic kernel.now (store_of ranges.now operands.now format) r.0 r.1)
        (RefusedOn S.arithmetic kernel.now (store_of ranges.now operands.now format)) }
{
    let prepared = match prepare::<S>(alloc, kernel, format, operands, ranges) {
        Ok(prepared) => prepared,
        Err(refusal) => return Err(fault_of(refusal)),
    };
    match run::<S>(prepared) {
        Ok(pair) => Ok(pair),
        Err(refusal) => Err(fault_of(refusal)),
    }
}
