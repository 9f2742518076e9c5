//! The texts of the commands that write no file.
ghost use Rattle.std.specs.Prelude.{◌≡◌, ◌≤◌, ℕ, List, Some};
ghost use Rattle.limits.specs.Limits.{greatest_workload};
ghost use Rattle.index_notation.specs.Statement.{IsNumberedWithSums};
ghost use Rattle.outside.specs.Folder.{FolderState};
ghost use Rattle.command_line.specs.CommandLine.{Workload as WorkloadLine, command_line_of};
ghost use Rattle.command_line.specs.declared.Task.TheVariants as task;
ghost use Rattle.operand_files.specs.Reads.{OnlyReads};
ghost use Rattle.taco_top.specs.Written.{IsAccepted};
ghost use Rattle.taco_top.specs.Told.{IsKernelOf};
ghost use Rattle.taco_top.specs.Values.{Values, semiring};
ghost use Rattle.taco_top.specs.Ends.{Cause};
ghost use Rattle.taco_top.specs.Run.{AsksFor, request_of};
ghost use Rattle.taco_top.specs.Prepared.{IsPrepared, end_of};

use crate::asked::Asked;
use crate::asking::Accepted;
use crate::computing::Computed;
use crate::ending::{Done, printed};
use generated_runs::run_workload;
use mode_planner::plan;
use numbers::Semiring;
use outside::Sink;
use refusals::Fault;
use reports::{print_kernel_report, print_plan, print_run_report, print_workload};
use std::alloc::Global;

/// Prints the kernel of what the words ask for.
pub(crate) fn tell_kernel<'a, O: Sink>(
    out: &mut O,
    accepted: &Accepted<'a>,
) -> Result<Done, Fault<'a>>
    requires accepted { (words : List (List ℕ)) × IsAccepted words (request_of accepted.now.asked) }
    requires kernel { (over : Values) × IsKernelOf over accepted.now.asked.statement accepted.now.asked.bindings.formats.items
        accepted.now.compiled.order accepted.now.compiled.kernel }
    requires task { accepted.now.asked.task ≡ task.Kernel }
    ensures { (over : Values) (words : List (List ℕ)) (files : FolderState) → IsAccepted words (request_of accepted.now.asked)
        → IsKernelOf over accepted.now.asked.statement accepted.now.asked.bindings.formats.items accepted.now.compiled.order
        accepted.now.compiled.kernel → Cause over words files files (O.state out.old) (O.state out.new) (end_of result) }
{
    let asked = &accepted.asked;
    let compiled = &accepted.compiled;
    printed(print_kernel_report(
        out,
        &asked.statement,
        compiled.order.as_slice(),
        asked.bindings.formats.as_slice(),
        &compiled.kernel,
    ))
}

/// Prints the report of a run.
pub(crate) fn tell_run<'a, S: Semiring, O: Sink>(
    out: &mut O,
    computed: &Computed<'a>,
) -> Result<Done, Fault<'a>>
    requires { (words : List (List ℕ)) × (files : FolderState) × (between : FolderState)
        × IsPrepared (semiring S.arithmetic S.has_minus S.is_ring S.is_signed S.name) words task.Report files between computed.now }
    ensures { (words : List (List ℕ)) (files between : FolderState) → OnlyReads files between
        → IsPrepared (semiring S.arithmetic S.has_minus S.is_ring S.is_signed S.name) words task.Report files between computed.now
        → Cause (semiring S.arithmetic S.has_minus S.is_ring S.is_signed S.name) words files between (O.state out.old) (O.state out.new)
        (end_of result) }
{
    let result = &computed.result;
    printed(print_run_report::<S, O>(
        out,
        &computed.statement,
        computed.compiled.order.as_slice(),
        computed.formats.as_slice(),
        &computed.compiled.kernel,
        &result.turns,
        &result.tensor,
    ))
}

/// Prints the accesses of what the words ask for that have to be stored in another order of their modes.
pub(crate) fn tell_plan<'a, O: Sink>(
    alloc: Global,
    out: &mut O,
    asked: &Asked<'a>,
) -> Result<Done, Fault<'a>>
    requires asked { (words : List (List ℕ)) × AsksFor words (request_of asked.now) }
    requires numbered { IsNumberedWithSums asked.now.statement }
    requires task { asked.now.task ≡ task.Plan }
    ensures { (over : Values) (words : List (List ℕ)) (files : FolderState) → AsksFor words (request_of asked.now)
        → Cause over words files files (O.state out.old) (O.state out.new) (end_of result) }
{
    let statement = &asked.statement;
    match plan(alloc, statement, asked.bindings.formats.as_slice()) {
        Ok(plan) => printed(print_plan(out, statement, plan.as_slice())),
        Err(_) => Err(Fault::Memory),
    }
}

/// Runs the generated workload of this size, and prints its line.
pub(crate) fn tell_workload<'a, O: Sink>(
    alloc: Global,
    size: u64,
    out: &mut O,
) -> Result<Done, Fault<'a>>
    requires { size ≤ greatest_workload }
    ensures { (over : Values) (words : List (List ℕ)) (files : FolderState) → command_line_of words ≡ Some (WorkloadLine size)
        → Cause over words files files (O.state out.old) (O.state out.new) (end_of result) }
{
    match run_workload(alloc, size) {
        Ok(workload) => printed(print_workload(out, &workload)),
        Err(_) => Err(Fault::Memory),
    }
}
