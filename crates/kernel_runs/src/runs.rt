//! A statement computed by its kernel.
ghost use Rattle.std.specs.Prelude.{◌≤◌, All, length, IfOk, IfErr};
ghost use Rattle.limits.specs.Limits.{greatest_order, greatest_position_count};
ghost use Rattle.index_notation.specs.Statement.{IsWellNamed};
ghost use Rattle.tensor_map.specs.Entries.{AreEntries};
ghost use Rattle.storage_arrays.specs.Arrays.{AreDone};
ghost use Rattle.kernel_correctness.specs.Kernels.{IsRightFor, IsSoundOn};
ghost use Rattle.kernel_machine.specs.Begins.{store_of};
ghost use Rattle.operand_packing.specs.Runnable.{IsRunnable};
ghost use Rattle.kernel_runs.specs.Runs.{IsRun, MayRefuseRun};
ghost use Rattle.kernel_runs.specs.Steps.{CanBegin, IsRunOn, RefusedOn};

use crate::fault::RunFault;
use crate::results::{entries_of, shape_of};
use crate::running::run_on;
use expr_terms::ranges;
use format_spec::Format;
use index_notation::Statement;
use kernel_code::{Kernel, Turns};
use numbers::Semiring;
use operand_files::Operands;
use operand_packing::pack_operands;
use std::alloc::Global;
use tensor_map::{Entries, Shape};
use tensor_storage::Tensor;

/// The result of a statement, as its kernel computes it.
#[derive(Drop)]
pub struct KernelRun {
    /// The ranges of the left side's variables.
    pub shape: Shape,
    /// The values that aren't zero, in lexicographic order of their coordinates.
    pub entries: Entries,
    /// The result as the kernel leaves it, in its format.
    pub tensor: Tensor,
    /// How often the kernel's loops turned.
    pub turns: Turns,
}

/// Runs a kernel on packed operands, which are lent, with these ranges of its variables and a result of this format, and takes the values
/// that aren't zero.
pub(crate) fn run_packed<S: Semiring>(
    alloc: Global,
    statement: &Statement,
    kernel: &Kernel,
    format: Format,
    operands: &[Tensor],
    ranges: &[u64],
) -> Result<KernelRun, RunFault>
    requires named { IsWellNamed statement.now }
    requires short { length statement.now.left.vars ≤ greatest_order }
    requires enough { length format ≤ length ranges.now }
    requires small { All (λ range. range ≤ greatest_position_count) ranges.now }
    requires done { All (λ t. AreDone 1 t.levels) operands.now }
    requires sound { CanBegin (store_of ranges.now operands.now format)
        → IsSoundOn S.arithmetic kernel.now (store_of ranges.now operands.now format) }
    ensures run { IfOk result (λ run. IsRunOn S.arithmetic statement.now kernel.now (store_of ranges.now operands.now format)
        run.shape run.entries run.tensor run.turns) }
    ensures refused { IfErr result (RefusedOn S.arithmetic kernel.now (store_of ranges.now operands.now format)) }
{
    let (tensor, turns) = match run_on::<S>(alloc, kernel, format, operands, ranges) {
        Ok(pair) => pair,
        Err(fault) => return Err(fault),
    };
    let entries = entries_of::<S>(alloc, &tensor)?;
    let shape = shape_of(alloc, statement, ranges)?;
    Ok(KernelRun {
        shape,
        entries,
        tensor,
        turns,
    })
}

/// Computes a statement over its operands by a kernel that is right for it and its formats. `formats` has the format of each tensor,
/// the result's first, and `given` the range of each variable to which a word gives one. Values are added and multiplied as `S` says.
///
/// Refused with the first fault of the ranges; or else for the first level of the first operand, in order of their numbers, that would
/// have more positions than may be; or for a level of the result, before the kernel runs or as it grows; or for the workspace of a
/// result that isn't dense. Memory may be wanted at any step. All memory of a written result is taken here.
pub fn run_kernel<S: Semiring>(
    alloc: Global,
    statement: &Statement,
    formats: &[Format],
    kernel: &Kernel,
    given: &[Option<u64>],
    mut operands: Operands,
) -> Result<KernelRun, RunFault>
    requires runnable { IsRunnable statement.now formats.now given.now operands.entries.items operands.bounds.items }
    requires right { IsRightFor S.arithmetic statement.now formats.now kernel.now }

    // The values are those of the statement by the ranges that words and operands give.
    ensures run { IfOk result (λ run. IsRun S.arithmetic statement.now formats.now kernel.now given.now operands.entries.items
        operands.bounds.items run.shape run.entries run.tensor run.turns) }

    // What is true of all entries is so of the result's.
    ensures entries { IfOk result (λ run. AreEntries run.entries) }

    // The first fault, or what a level or the workspace would need, or want of memory.
    ensures refused { IfErr result (MayRefuseRun S.arithmetic statement.now formats.now kernel.now given.now operands.entries.items
        operands.bounds.items) }
{
    let ranges = ranges(alloc, statement, given, operands.bounds.as_slice())?;
    let entries = operands.entries.as_mut_slice();
    let tensors = pack_operands::<S>(alloc, statement, formats, &ranges, entries)?;
    let format = formats[0].copied();
    match run_packed::<S>(alloc, statement, kernel, format, &tensors, &ranges) {
        Ok(computed) => Ok(computed),
        Err(fault) => Err(fault),
    }
}
