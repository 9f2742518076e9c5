//! A statement computed by the kernel of its planned one.
ghost use Rattle.std.specs.Prelude.{IfOk, IfErr};
ghost use Rattle.tensor_map.specs.Entries.{AreEntries};
ghost use Rattle.kernel_correctness.specs.Kernels.{IsRightFor};
ghost use Rattle.kernel_runs.specs.Planned.{IsPlannedRun, IsPlannedRunnable, MayRefusePlanned};

use crate::fault::RunFault;
use crate::runs::{KernelRun, run_packed};
use expr_terms::ranges;
use index_notation::Statement;
use kernel_code::Kernel;
use mode_planner::Planned;
use numbers::Semiring;
use operand_files::Operands;
use operand_packing::pack_drawn;
use std::alloc::Global;

/// Computes a statement over its operands by its plan: by a kernel that is right for the planned statement and its formats. `given` has
/// the range of each variable to which a word gives one. The operands are those of the given statement, each read once; what a tensor of
/// the planned one stores is packed from the entries of its operand.
///
/// Refused as a run of the given statement is where its ranges are, and for levels of the planned one.
pub fn run_planned<S: Semiring>(
    alloc: Global,
    statement: &Statement,
    plan: &Planned,
    kernel: &Kernel,
    given: &[Option<u64>],
    mut operands: Operands,
) -> Result<KernelRun, RunFault>
    requires runnable { IsPlannedRunnable statement.now plan.now given.now operands.entries.items operands.bounds.items }
    requires right { IsRightFor S.arithmetic plan.now.statement plan.now.formats kernel.now }

    // The values are those of the given statement by the ranges that words and operands give it.
    ensures run { IfOk result (λ run. IsPlannedRun S.arithmetic statement.now plan.now kernel.now given.now operands.entries.items
        operands.bounds.items run.shape run.entries run.tensor run.turns) }

    // What is true of all entries is so of the result's.
    ensures entries { IfOk result (λ run. AreEntries run.entries) }

    // The first fault, or what a level or the workspace would need, or want of memory.
    ensures refused { IfErr result (MayRefusePlanned S.arithmetic statement.now plan.now kernel.now given.now operands.entries.items
        operands.bounds.items) }
{
    let ranges = ranges(alloc, statement, given, operands.bounds.as_slice())?;
    let entries = operands.entries.as_mut_slice();
    let formats = plan.formats.as_slice();
    let origins = plan.origins.as_slice();
    let tensors = pack_drawn::<S>(alloc, &plan.statement, formats, origins, &ranges, entries)?;
    let format = formats[0].copied();
    match run_packed::<S>(alloc, &plan.statement, kernel, format, &tensors, &ranges) {
        Ok(computed) => Ok(computed),
        Err(fault) => Err(fault),
    }
}
