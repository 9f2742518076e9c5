//! The result of what the words ask for, over the operands that were read.
ghost use Rattle.std.specs.Prelude.{◌≡◌, ℕ, List, Option, true, IfOk, IfErr, Vec};
ghost use Rattle.std.specs.declared.alloc.Global.{Global as AGlobal};
ghost use Rattle.taco_top.specs.Values.{Values, semiring};
ghost use Rattle.kernel_correctness.specs.Kernels.{IsRightFor};
ghost use Rattle.mode_planner.specs.Planned.{Answers};
ghost use Rattle.operand_packing.specs.Runnable.{IsRunnable};
ghost use Rattle.tensor_map.specs.Entries.{AreEntries, Entries};
ghost use Rattle.kernel_code.specs.declared.syntax.Kernel.{Kernel as AKernel};
ghost use Rattle.format_spec.specs.declared.format.FormatLevel.{FormatLevel};
ghost use Rattle.index_notation.specs.Statement.{IsNumberedWithSums};
ghost use Rattle.expr_terms.specs.declared.bound.Bound.{Bound};
ghost use Rattle.operand_files.specs.Reads.{OnlyReads};
ghost use Rattle.taco_top.specs.Asked.{needs_files};
ghost use Rattle.taco_top.specs.Written.{IsAccepted};
ghost use Rattle.taco_top.specs.Told.{IsKernelOf};
ghost use Rattle.taco_top.specs.Refused.{Stops};
ghost use Rattle.taco_top.specs.Run.{request_of};
ghost use Rattle.taco_top.specs.Prepared.{IsPrepared, IsStoredRun, IsUncomputed, MayRefuseStored};
ghost use Rattle.taco_top.specs.Stored.{IsRunBy, stored_statement, stored_formats};

use crate::asked::Asked;
use crate::asking::Accepted;
use crate::operands::{file_of, operands_of};
use bindings::{Bindings, TensorFile};
use format_spec::Format;
use index_notation::Statement;
use kernel_code::Kernel;
use kernel_runs::{KernelRun, RunFault, run_kernel, run_planned};
use mode_planner::Planned;
use numbers::Semiring;
use operand_files::Operands;
use outside::Folder;
use refusals::{Fault, NamedFault};
use std::alloc::Global;
use taco_compiler::Compiled;

/// A statement that its kernel computed, with what a report tells of it, and the file that the result goes to, if one is given.
#[derive(Drop)]
pub(crate) struct Computed<'a> {
    pub file: Option<TensorFile<'a>>,
    pub statement: Statement,
    pub formats: Vec<Format>,
    pub compiled: Compiled,
    pub result: KernelRun,
}

/// The statement that is run, by whose names its levels are told.
fn stored(statement: Statement, plan: Option<Planned>) -> Statement
    ensures { result ≡ stored_statement statement plan }
{
    match plan {
        None => statement,
        Some(plan) => plan.statement,
    }
}

/// The refusal of a run, told by the names of the statement.
fn fault_of<'a>(statement: Statement, plan: Option<Planned>, why: RunFault) -> Fault<'a>
    ensures { (over : Values) (formats : List (List FormatLevel)) (kernel : AKernel) (given : List (Option ℕ)) (entries : List Entries)
        (bounds : List (Vec Bound AGlobal))
        → MayRefuseStored over statement formats plan kernel given entries bounds why
        → IsUncomputed over statement formats plan kernel given entries bounds result }
{
    match why {
        RunFault::Range(why) => Fault::Named {
            statement,
            fault: NamedFault::Range(why),
        },
        RunFault::SizeLimit(large) => Fault::Named {
            statement: stored(statement, plan),
            fault: NamedFault::SizeLimit(large),
        },
        RunFault::Workspace { count } => Fault::WorkspaceLimit(count),
        RunFault::Memory(_) => Fault::Memory,
    }
}

/// Runs the kernel of a statement, as its plan tells to store it, over the operands that were read.
fn run_stored<S: Semiring>(
    alloc: Global,
    statement: &Statement,
    formats: &[Format],
    plan: &Option<Planned>,
    kernel: &Kernel,
    given: &[Option<u64>],
    operands: Operands,
) -> Result<KernelRun, RunFault>
    requires runnable { IsRunnable statement.now formats.now given.now operands.entries.items operands.bounds.items }
    requires plan { Answers statement.now formats.now plan.now }
    requires right { IsRightFor S.arithmetic (stored_statement statement.now plan.now) (stored_formats formats.now plan.now) kernel.now }
    ensures run { IfOk result (λ run. IsStoredRun (semiring S.arithmetic S.has_minus S.is_ring S.is_signed S.name) statement.now
        formats.now plan.now kernel.now given.now operands.entries.items operands.bounds.items run.shape run.entries run.tensor run.turns) }
    ensures entries { IfOk result (λ run. AreEntries run.entries) }
    ensures refused { IfErr result (MayRefuseStored (semiring S.arithmetic S.has_minus S.is_ring S.is_signed S.name) statement.now
        formats.now plan.now kernel.now given.now operands.entries.items operands.bounds.items) }
{
    match plan {
        None => run_kernel::<S>(alloc, statement, formats, kernel, given, operands),
        Some(plan) => run_planned::<S>(alloc, statement, plan, kernel, given, operands),
    }
}

/// Does all that comes before the first write: reads the operands, and runs the kernel. All memory of the program's own is taken
/// here.
pub(crate) fn compute<'a, S: Semiring, F: Folder>(
    alloc: Global,
    accepted: Accepted<'a>,
    files: &mut F,
) -> Result<Computed<'a>, Fault<'a>>
    requires accepted { (words : List (List ℕ)) × IsAccepted words (request_of accepted.asked) }
    requires plan { IsRunBy (request_of accepted.asked) accepted.plan }
    requires kernel { IsKernelOf (semiring S.arithmetic S.has_minus S.is_ring S.is_signed S.name)
        (stored_statement accepted.asked.statement accepted.plan)
        (stored_formats accepted.asked.bindings.formats.items accepted.plan) accepted.compiled.order accepted.compiled.kernel }
    requires numbered { IsNumberedWithSums accepted.asked.statement }
    requires reads { needs_files accepted.asked.task ≡ true }
    ensures only_reads { OnlyReads (F.state files.old) (F.state files.new) }
    ensures computed { IfOk result (λ computed. (words : List (List ℕ)) → IsAccepted words (request_of accepted.entry.asked)
        → IsPrepared (semiring S.arithmetic S.has_minus S.is_ring S.is_signed S.name) words accepted.entry.asked.task
        (F.state files.old) (F.state files.new) computed) }
    ensures stops { IfErr result (λ fault. (words : List (List ℕ)) → IsAccepted words (request_of accepted.entry.asked)
        → Stops (semiring S.arithmetic S.has_minus S.is_ring S.is_signed S.name) words (F.state files.old) (F.state files.new) fault) }
{
    let Accepted {
        asked,
        plan,
        compiled,
    } = accepted;
    let file = file_of(&asked.bindings, 0);
    let operands = match operands_of::<S, F>(alloc, &asked, files) {
        Ok(operands) => operands,
        Err(fault) => return Err(fault),
    };
    let Asked {
        task: _,
        over: _,
        statement,
        bindings,
    } = asked;
    let Bindings {
        formats,
        files: _,
        ranges,
    } = bindings;
    match run_stored::<S>(
        alloc,
        &statement,
        formats.as_slice(),
        &plan,
        &compiled.kernel,
        ranges.as_slice(),
        operands,
    ) {
        Ok(result) => Ok(Computed {
            file,
            statement,
            formats,
            compiled,
            result,
        }),
        Err(why) => Err(fault_of(statement, plan, why)),
    }
}
