//! The statement of the workload, computed over operands.
ghost use Rattle.std.specs.Prelude.{◌≡◌, ◌≤◌, ◌∷◌, [], IfOk, Some};
ghost use Rattle.limits.specs.Limits.{greatest_workload};
ghost use Rattle.numbers.specs.Ring.{ring};
ghost use Rattle.kernel_correctness.specs.Kernels.{IsRightFor};
ghost use Rattle.taco_compiler.specs.Compiled.{IsCompiled, IsOrder};
ghost use Rattle.kernel_runs.specs.Runs.{IsRun};
ghost use Rattle.generated_runs.specs.Matrices.{AreMatrices};
ghost use Rattle.generated_runs.specs.Refused.{IsForMemory};
ghost use Rattle.generated_runs.specs.Workloads.{workload_statement, workload_formats, IsComputed};

use crate::statement::{workload_formats, workload_statement};
use format_spec::Format;
use index_notation::Statement;
use kernel_code::Kernel;
use kernel_runs::{KernelRun, RunFault, run_kernel};
use numbers::Ring;
use operand_files::Operands;
use std::alloc::{AllocError, Global};
use taco_compiler::{CompileFault, Compiled, compile};
use tensor_map::Entries;

/// The kernel of the statement. Its storage orders have no cycle, so it is refused only for want of memory.
fn workload_kernel(
    alloc: Global,
    statement: &Statement,
    formats: &[Format],
) -> Result<Compiled, AllocError>
    requires statement { statement.now ≡ workload_statement }
    requires formats { formats.now ≡ workload_formats }
    ensures order { IfOk result (λ compiled. IsOrder workload_statement workload_formats compiled.order) }
    ensures right { IfOk result (λ compiled. IsRightFor ring workload_statement workload_formats compiled.kernel) }
    ensures kernel { IfOk result (λ compiled. IsCompiled ring workload_statement workload_formats compiled.order compiled.kernel) }
{
    match compile::<Ring>(alloc, statement, formats) {
        Ok(compiled) => Ok(compiled),
        Err(CompileFault::Cycle(_)) => unreachable!(),
        Err(CompileFault::Memory(error)) => Err(error),
    }
}

/// Three operands, which tell nothing of ranges. Refused only for want of memory.
fn operands_of(
    alloc: Global,
    first: Entries,
    second: Entries,
    third: Entries,
) -> Result<Operands, AllocError>
    ensures entries { IfOk result (λ operands. operands.entries.items ≡ first ∷ second ∷ third ∷ []) }
    ensures bounds { IfOk result (λ operands. operands.bounds.items ≡ []) }
{
    let mut entries = Vec::new(alloc);
    entries.push(first)?;
    entries.push(second)?;
    entries.push(third)?;
    Ok(Operands {
        entries,
        bounds: Vec::new(alloc),
    })
}

/// The want of memory that a run is refused for.
fn memory_of(fault: RunFault) -> AllocError
    requires { IsForMemory fault }
{
    match fault {
        RunFault::Memory(error) => error,
        RunFault::Range(_) => unreachable!(),
        RunFault::SizeLimit(_) => unreachable!(),
        RunFault::Workspace { .. } => unreachable!(),
    }
}

/// Runs the statement's kernel. All tensors fit the limits, so it is refused only for want of memory.
fn run_on(
    alloc: Global,
    statement: &Statement,
    formats: &[Format],
    kernel: &Kernel,
    size: u64,
    operands: Operands,
) -> Result<KernelRun, AllocError>
    requires statement { statement.now ≡ workload_statement }
    requires formats { formats.now ≡ workload_formats }
    requires right { IsRightFor ring workload_statement workload_formats kernel.now }
    requires small { size ≤ greatest_workload }
    requires matrices { AreMatrices size operands.entries.items }
    requires untold { operands.bounds.items ≡ [] }
    ensures { IfOk result (λ run. IsRun ring workload_statement workload_formats kernel.now (Some size ∷ Some size ∷ [])
        operands.entries.items [] run.shape run.entries run.tensor run.turns) }
{
    match run_kernel::<Ring>(
        alloc,
        statement,
        formats,
        kernel,
        &[Some(size), Some(size)],
        operands,
    ) {
        Ok(run) => Ok(run),
        Err(fault) => Err(memory_of(fault)),
    }
}

/// Computes the statement over operands, with this range of both variables. Refused only for want of memory.
pub(crate) fn compute(
    alloc: Global,
    size: u64,
    first: Entries,
    second: Entries,
    third: Entries,
) -> Result<KernelRun, AllocError>
    requires small { size ≤ greatest_workload }
    requires matrices { AreMatrices size (first ∷ second ∷ third ∷ []) }
    ensures { IfOk result (λ run. IsComputed size (first ∷ second ∷ third ∷ []) run.entries run.turns) }
{
    let statement = workload_statement(alloc)?;
    let formats = workload_formats(alloc)?;
    let compiled = workload_kernel(alloc, &statement, formats.as_slice())?;
    let operands = operands_of(alloc, first, second, third)?;
    let run = run_on(
        alloc,
        &statement,
        formats.as_slice(),
        &compiled.kernel,
        size,
        operands,
    )?;
    Ok(run)
}
