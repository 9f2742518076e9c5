//! A statement's operands computed by a kernel of which nothing is known.
ghost use Rattle.std.specs.Prelude.{◌≤◌, ℕ, All, length, IfOk, IfErr};
ghost use Rattle.limits.specs.Limits.{greatest_order, greatest_position_count};
ghost use Rattle.index_notation.specs.Statement.{IsWellNamed};
ghost use Rattle.tensor_map.specs.Entries.{AreEntries};
ghost use Rattle.numbers.specs.Arithmetic.{Arithmetic};
ghost use Rattle.kernel_code.specs.declared.syntax.Kernel.{Kernel as AKernel};
ghost use Rattle.kernel_correctness.specs.Stores.{Store as AStore};
ghost use Rattle.kernel_machine.specs.Begins.{store_of};
ghost use Rattle.kernel_machine.specs.Checked.{IsCheckedFault};
ghost use Rattle.operand_packing.specs.Runnable.{IsRunnable};
ghost use Rattle.kernel_runs.specs.Given.{IsGivenOn, IsGivenRun, MayRefuseGiven, RefusedGiven};

use crate::fault::{GivenFault, RunFault, large};
use crate::results::{entries_of, shape_of};
use crate::runs::KernelRun;
use expr_terms::ranges;
use format_spec::Format;
use index_notation::Statement;
use kernel_code::Kernel;
use kernel_machine::{CheckedFault, run_checked};
use numbers::Semiring;
use operand_files::Operands;
use operand_packing::pack_operands;
use std::alloc::{AllocError, Global};
use tensor_storage::Tensor;

/// The machine's refusal as that of a run. The result is tensor 0.
fn fault_of(refusal: CheckedFault) -> GivenFault
    ensures { (a : Arithmetic) (kernel : AKernel) (store : AStore) (budget : ℕ) → IsCheckedFault a kernel store budget refusal
        → RefusedGiven a kernel store budget result }
{
    match refusal {
        CheckedFault::Trap { statement } => GivenFault::Trap { statement },
        CheckedFault::Budget => GivenFault::Budget,
        CheckedFault::SizeLimit { place, count } => GivenFault::Run(large(place, count)),
        CheckedFault::BadStore => GivenFault::BadStore,
        CheckedFault::Memory => GivenFault::Run(RunFault::Memory(AllocError)),
    }
}

/// Runs a kernel on packed operands, which are lent, with these ranges of its variables and a result of this format, within the budget, and
/// takes the values that aren't zero.
fn check_packed<S: Semiring>(
    alloc: Global,
    statement: &Statement,
    kernel: &Kernel,
    format: Format,
    operands: &[Tensor],
    ranges: &[u64],
    budget: u64,
) -> Result<KernelRun, GivenFault>
    requires named { IsWellNamed statement.now }
    requires short { length statement.now.left.vars ≤ greatest_order }
    requires enough { length format ≤ length ranges.now }
    requires small { All (λ range. range ≤ greatest_position_count) ranges.now }
    ensures run { IfOk result (λ run. IsGivenOn S.arithmetic statement.now kernel.now (store_of ranges.now operands.now format) budget
        run.shape run.entries run.tensor run.turns) }
    ensures refused { IfErr result (RefusedGiven S.arithmetic kernel.now (store_of ranges.now operands.now format) budget) }
{
    let (tensor, turns) = match run_checked::<S>(alloc, kernel, format, operands, ranges, budget) {
        Ok(pair) => pair,
        Err(refusal) => return Err(fault_of(refusal)),
    };
    let entries = entries_of::<S>(alloc, &tensor)?;
    let shape = shape_of(alloc, statement, ranges)?;
    Ok(KernelRun {
        shape,
        entries,
        tensor,
        turns,
    })
}

/// Computes over a statement's operands by a kernel that need not be right, nor sound, for at most `budget` turns in all. `formats` has the
/// format of each tensor, the result's first, and `given` the range of each variable to which a word gives one. Values are added and
/// multiplied as `S` says. What the statement says counts for the ranges of its variables, the operands and the result's format alone.
///
/// Refused with the first fault of the ranges; or else for the first level of the first operand, in order of their numbers, that would have
/// more positions than may be; or else as `run_checked` refuses the kernel on the store of the packed operands. Memory may be wanted at any
/// step. All memory of a written result is taken here. It always returns.
pub fn run_given<S: Semiring>(
    alloc: Global,
    statement: &Statement,
    formats: &[Format],
    kernel: &Kernel,
    given: &[Option<u64>],
    mut operands: Operands,
    budget: u64,
) -> Result<KernelRun, GivenFault>
    requires runnable { IsRunnable statement.now formats.now given.now operands.entries.items operands.bounds.items }

    // The values are those at the paths of the storage that the kernel leaves.
    ensures run { IfOk result (λ run. IsGivenRun S.arithmetic statement.now formats.now kernel.now given.now operands.entries.items
        operands.bounds.items budget run.shape run.entries run.tensor run.turns) }

    // What is true of all entries is so of the result's.
    ensures entries { IfOk result (λ run. AreEntries run.entries) }

    // The first fault, or what the machine answers, or want of memory.
    ensures refused { IfErr result (MayRefuseGiven S.arithmetic statement.now formats.now kernel.now given.now operands.entries.items
        operands.bounds.items budget) }
{
    let ranges = ranges(alloc, statement, given, operands.bounds.as_slice())?;
    let entries = operands.entries.as_mut_slice();
    let tensors = pack_operands::<S>(alloc, statement, formats, &ranges, entries)?;
    let format = formats[0].copied();
    match check_packed::<S>(alloc, statement, kernel, format, &tensors, &ranges, budget) {
        Ok(computed) => Ok(computed),
        Err(fault) => Err(fault),
    }
}
