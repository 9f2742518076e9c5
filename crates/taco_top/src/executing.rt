//! The run of a kernel that is given in a file.
ghost use Rattle.std.specs.Prelude.{◌≡◌, ℕ, List, IfErr, IfOk};
ghost use Rattle.index_notation.specs.Statement.{IsNumberedWithSums};
ghost use Rattle.outside.specs.Folder.{FolderState};
ghost use Rattle.operand_files.specs.Reads.{OnlyReads};
ghost use Rattle.taco_top.specs.Exec.{AsksExec, exec_request};
ghost use Rattle.taco_top.specs.Executed.{HasInput, HasKernel, StopsExec, kernel_values, over_named, over_of as over_of_kernel};
ghost use Rattle.taco_top.specs.Executing.{EndsExec, IsReady, fault_of_run};
ghost use Rattle.taco_top.specs.Values.{semiring};

use crate::asked::Execution;
use crate::ending::Done;
use crate::operands::{file_of, files_of, orders_of};
use crate::writing::path_of;
use bindings::{Bindings, TensorFile};
use command_line::Over;
use index_notation::Statement;
use kernel_code::{Kernel, KernelSemiring};
use kernel_runs::{GivenFault, KernelRun, RunFault, run_given};
use numbers::{Ring, Semiring};
use operand_files::{KernelFileFault, OperandFault, Operands, read_kernel_file, read_operands};
use outside::{Folder, Sink};
use refusals::{Fault, KernelFault, NamedFault};
use result_files::{WriteRefusal, write_result};
use semirings::{Bits, MinPlus};
use std::alloc::Global;

/// What the run of a kernel left, and the file that it goes to, if one is given.
#[derive(Drop)]
pub(crate) struct Ready<'a> {
    pub file: Option<TensorFile<'a>>,
    pub result: KernelRun,
}

/// The semiring of this name.
fn over_named(name: &[u8]) -> Over
    ensures { result ≡ over_named name.now }
{
    if name == b"minplus".as_slice() {
        Over::MinPlus
    } else if name == b"bits".as_slice() {
        Over::Bits
    } else {
        Over::Ring
    }
}

/// The semiring of a kernel.
fn over_of(kernel: &Kernel) -> Over
    ensures { result ≡ over_of_kernel kernel.now.semiring }
{
    match &kernel.semiring {
        KernelSemiring::Ring => Over::Ring,
        KernelSemiring::Named(name) => over_named(name.as_slice()),
    }
}

/// Reads the kernel's file.
fn read_kernel<'a, F: Folder>(
    alloc: Global,
    execution: &Execution<'a>,
    files: &mut F,
) -> Result<Kernel, Fault<'a>>
    ensures only_reads { OnlyReads (F.state files.old) (F.state files.new) }
    ensures kernel { IfOk result (HasKernel execution.now.path.now (F.state files.old) (F.state files.new)) }
    ensures stops { IfErr result (λ fault. (words : List (List ℕ)) → AsksExec words (exec_request execution.now)
        → StopsExec words (F.state files.old) (F.state files.new) fault) }
{
    let path = execution.path;
    match read_kernel_file(alloc, files, path) {
        Ok(kernel) => Ok(kernel),
        Err(KernelFileFault::ReadFault) => Err(Fault::ReadFault(path)),
        Err(KernelFileFault::FileBytes) => Err(Fault::FileBytes(path)),
        Err(KernelFileFault::KernelDepth { line }) => {
            Err(Fault::Kernel(KernelFault::KernelDepth { path, line }))
        }
        Err(KernelFileFault::BadKernel { line }) => {
            Err(Fault::Kernel(KernelFault::BadKernel { path, line }))
        }
        Err(KernelFileFault::Memory) => Err(Fault::Memory),
    }
}

/// Reads the operands' files, behind the kernel's, each to its end, in the order of the tensors' numbers.
fn read_inputs<'a, S: Semiring, F: Folder>(
    alloc: Global,
    execution: &Execution<'a>,
    kernel: &Kernel,
    files: &mut F,
) -> Result<Operands, Fault<'a>>
    requires asked { (words : List (List ℕ)) × AsksExec words (exec_request execution.now) }
    requires numbered { IsNumberedWithSums execution.now.statement }
    requires over { kernel_values kernel.now ≡ semiring S.arithmetic S.has_minus S.is_ring S.is_signed S.name }
    ensures only_reads { OnlyReads (F.state files.old) (F.state files.new) }
    ensures read { IfOk result (λ operands. (words : List (List ℕ)) (before : FolderState) → AsksExec words (exec_request execution.now)
        → HasKernel execution.now.path.now before (F.state files.old) kernel.now
        → HasInput words before (F.state files.new) (exec_request execution.now) kernel.now operands.entries.items operands.bounds.items) }
    ensures stops { IfErr result (λ fault. (words : List (List ℕ)) (before : FolderState) → AsksExec words (exec_request execution.now)
        → HasKernel execution.now.path.now before (F.state files.old) kernel.now
        → StopsExec words before (F.state files.new) fault) }
{
    let orders = orders_of(alloc, &execution.statement)?;
    let sources = files_of(alloc, &execution.statement, &execution.bindings)?;
    match read_operands::<F, S>(alloc, files, orders.as_slice(), sources.as_slice()) {
        Ok(operands) => Ok(operands),
        Err(OperandFault::ReadFault(path)) => Err(Fault::ReadFault(path)),
        Err(OperandFault::FileBytes(path)) => Err(Fault::FileBytes(path)),
        Err(OperandFault::BadFile { path, line, kind }) => Err(Fault::BadFile { path, line, kind }),
        Err(OperandFault::Memory) => Err(Fault::Memory),
    }
}

/// The refusal of a kernel's run, told by the names of the statement and by the turns that it was given.
fn fault_of<'a>(statement: Statement, budget: u64, why: GivenFault) -> Fault<'a>
    ensures { result ≡ fault_of_run statement budget why }
{
    match why {
        GivenFault::Run(RunFault::Range(why)) => Fault::Named {
            statement,
            fault: NamedFault::Range(why),
        },
        GivenFault::Run(RunFault::SizeLimit(large)) => Fault::Named {
            statement,
            fault: NamedFault::SizeLimit(large),
        },
        GivenFault::Run(RunFault::Workspace { count }) => Fault::WorkspaceLimit(count),
        GivenFault::Run(RunFault::Memory(_)) => Fault::Memory,
        GivenFault::Trap { statement } => Fault::Kernel(KernelFault::Trap { statement }),
        GivenFault::Budget => Fault::Kernel(KernelFault::Budget { turns: budget }),
        GivenFault::BadStore => Fault::Kernel(KernelFault::BadStore),
    }
}

/// Does all that comes between the reading of the kernel and the first write: reads the operands, and runs the kernel. All memory of the
/// program's own is taken here.
fn run_kernel<'a, S: Semiring, F: Folder>(
    alloc: Global,
    execution: Execution<'a>,
    kernel: &Kernel,
    files: &mut F,
) -> Result<Ready<'a>, Fault<'a>>
    requires asked { (words : List (List ℕ)) × AsksExec words (exec_request execution) }
    requires numbered { IsNumberedWithSums execution.statement }
    requires over { kernel_values kernel.now ≡ semiring S.arithmetic S.has_minus S.is_ring S.is_signed S.name }
    requires read { (before : FolderState) × HasKernel execution.path.now before (F.state files.old) kernel.now }
    ensures only_reads { OnlyReads (F.state files.old) (F.state files.new) }
    ensures ready { IfOk result (λ ready. (words : List (List ℕ)) (before : FolderState) → AsksExec words (exec_request execution.entry)
        → HasKernel execution.entry.path.now before (F.state files.old) kernel.now
        → IsReady (semiring S.arithmetic S.has_minus S.is_ring S.is_signed S.name) words before (F.state files.new) ready) }
    ensures stops { IfErr result (λ fault. (words : List (List ℕ)) (before : FolderState) → AsksExec words (exec_request execution.entry)
        → HasKernel execution.entry.path.now before (F.state files.old) kernel.now
        → StopsExec words before (F.state files.new) fault) }
{
    let file = file_of(&execution.bindings, 0);
    let operands = match read_inputs::<S, F>(alloc, &execution, kernel, files) {
        Ok(operands) => operands,
        Err(fault) => return Err(fault),
    };
    let Execution {
        path: _,
        budget,
        statement,
        bindings,
    } = execution;
    let Bindings {
        formats,
        files: _,
        ranges,
    } = bindings;
    match run_given::<S>(
        alloc,
        &statement,
        formats.as_slice(),
        kernel,
        ranges.as_slice(),
        operands,
        budget,
    ) {
        Ok(result) => Ok(Ready { file, result }),
        Err(why) => Err(fault_of(statement, budget, why)),
    }
}

/// Writes what the kernel left: to `out`, or into its file.
fn write_ready<'a, S: Semiring, F: Folder, O: Sink>(
    files: &mut F,
    out: &mut O,
    ready: &Ready<'a>,
) -> Result<Done, Fault<'a>>
    requires { (words : List (List ℕ)) × (before : FolderState)
        × IsReady (semiring S.arithmetic S.has_minus S.is_ring S.is_signed S.name) words before (F.state files.old) ready.now }
    ensures { (words : List (List ℕ)) (before : FolderState) → OnlyReads before (F.state files.old)
        → IsReady (semiring S.arithmetic S.has_minus S.is_ring S.is_signed S.name) words before (F.state files.old) ready.now
        → EndsExec words before (F.state files.new) (O.state out.old) (O.state out.new) result }
{
    let file = ready.file;
    let result = &ready.result;
    match write_result::<S, F, O>(files, out, file, &result.shape, &result.entries) {
        Ok(()) => Ok(Done::Written(result.turns)),
        Err(WriteRefusal::Fault) => Err(Fault::WriteFault(path_of(file))),
        Err(WriteRefusal::Memory(_)) => Err(Fault::Memory),
    }
}

/// Runs a kernel that was read, over its semiring, and writes what it leaves.
fn execute_over<'a, S: Semiring, F: Folder, O: Sink>(
    alloc: Global,
    execution: Execution<'a>,
    kernel: &Kernel,
    files: &mut F,
    out: &mut O,
) -> Result<Done, Fault<'a>>
    requires asked { (words : List (List ℕ)) × AsksExec words (exec_request execution) }
    requires numbered { IsNumberedWithSums execution.statement }
    requires over { kernel_values kernel.now ≡ semiring S.arithmetic S.has_minus S.is_ring S.is_signed S.name }
    requires read { (before : FolderState) × HasKernel execution.path.now before (F.state files.old) kernel.now }
    ensures { (words : List (List ℕ)) (before : FolderState) → AsksExec words (exec_request execution.entry)
        → HasKernel execution.entry.path.now before (F.state files.old) kernel.now
        → EndsExec words before (F.state files.new) (O.state out.old) (O.state out.new) result }
{
    match run_kernel::<S, F>(alloc, execution, kernel, files) {
        Ok(ready) => write_ready::<S, F, O>(files, out, &ready),
        Err(fault) => Err(fault),
    }
}

/// Runs the kernel of the file that the words give, and writes what it leaves.
pub(crate) fn execute<'a, F: Folder, O: Sink>(
    alloc: Global,
    execution: Execution<'a>,
    files: &mut F,
    out: &mut O,
) -> Result<Done, Fault<'a>>
    requires asked { (words : List (List ℕ)) × AsksExec words (exec_request execution) }
    requires numbered { IsNumberedWithSums execution.statement }
    ensures { (words : List (List ℕ)) → AsksExec words (exec_request execution.entry)
        → EndsExec words (F.state files.old) (F.state files.new) (O.state out.old) (O.state out.new) result }
{
    let kernel = match read_kernel(alloc, &execution, files) {
        Ok(kernel) => kernel,
        Err(fault) => return Err(fault),
    };
    match over_of(&kernel) {
        Over::Ring => execute_over::<Ring, F, O>(alloc, execution, &kernel, files, out),
        Over::MinPlus => execute_over::<MinPlus, F, O>(alloc, execution, &kernel, files, out),
        Over::Bits => execute_over::<Bits, F, O>(alloc, execution, &kernel, files, out),
    }
}
