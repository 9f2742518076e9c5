//! What the words ask for, with its kernel.
ghost use Rattle.std.specs.Prelude.{◌≡◌, ◌≤◌, ℕ, List, None, IfOk, IfErr, IfSome, length, true};
ghost use Rattle.lists.specs.Each.{Each};
ghost use Rattle.kernel_code.specs.Semirings.{semiring_of};
ghost use Rattle.nested_sums.specs.Bound.{HasNoBadSum};
ghost use Rattle.nested_sums.specs.Pieces.{HasMeaningWithSums};
ghost use Rattle.taco_top.specs.Values.{semiring, values_of};
ghost use Rattle.index_notation.specs.Statement.{IsNumberedWithSums, IsWellNamed};
ghost use Rattle.iteration_graph.specs.Edges.{HasFormat};
ghost use Rattle.mode_planner.specs.Planned.{Answers as PlanAnswers, CanBeCompiled};
ghost use Rattle.outside.specs.Folder.{FolderState};
ghost use Rattle.command_line.specs.declared.Task.TheVariants as tasks;
ghost use Rattle.taco_compiler.specs.Compiled.{Answers};
ghost use Rattle.taco_top.specs.Written.{IsAccepted};
ghost use Rattle.taco_top.specs.Told.{IsKernelOf};
ghost use Rattle.taco_top.specs.Refused.{Stops};
ghost use Rattle.taco_top.specs.Asked.{needs_kernel, needs_order};
ghost use Rattle.taco_top.specs.Run.{AsksFor, request_of};
ghost use Rattle.taco_top.specs.Stored.{IsRunBy, stored_statement, stored_formats};

use crate::asked::Asked;
use command_line::Task;
use format_spec::Format;
use index_notation::Statement;
use mode_planner::{Planned, plan_statement};
use numbers::Semiring;
use refusals::{Fault, NamedFault};
use std::alloc::{AllocError, Global};
use taco_compiler::{CompileFault, Compiled, compile};

/// What the words ask for, and a kernel for it; or for the statement that is run in its place, where its storage orders are mended.
#[derive(Drop)]
pub(crate) struct Accepted<'a> {
    pub asked: Asked<'a>,
    pub plan: Option<Planned>,
    pub compiled: Compiled,
}

/// The statement that is run in place of one whose storage orders have a cycle, if the task mends them.
fn mended(
    alloc: Global,
    task: Task,
    statement: &Statement,
    formats: &[Format],
) -> Result<Option<Planned>, AllocError>
    requires numbered { IsNumberedWithSums statement.now }
    requires named { IsWellNamed statement.now }
    requires left { HasFormat formats.now statement.now.left }
    requires right { Each (HasFormat formats.now) statement.now.accesses }
    ensures unplanned { IfOk result (λ plan. needs_order task ≡ true → plan ≡ None) }
    ensures planned { IfOk result (λ plan. task ≡ tasks.Auto → PlanAnswers statement.now formats.now plan) }
    ensures compiled { IfOk result (λ plan. IfSome plan (λ planned. CanBeCompiled planned.statement planned.formats)) }
{
    match task {
        Task::Auto => plan_statement(alloc, statement, formats),
        _ => Ok(None),
    }
}

/// A kernel for a statement, as its plan tells to store it.
fn compile_stored<S: Semiring>(
    alloc: Global,
    statement: &Statement,
    formats: &[Format],
    plan: &Option<Planned>,
) -> Result<Compiled, CompileFault>
    requires numbered { IsNumberedWithSums (stored_statement statement.now plan.now) }
    requires bound { HasNoBadSum (stored_statement statement.now plan.now) }
    requires few { length (stored_formats formats.now plan.now) ≤ length (stored_statement statement.now plan.now).tensors }
    requires named { IsWellNamed statement.now }
    requires left { HasFormat formats.now statement.now.left }
    requires right { Each (HasFormat formats.now) statement.now.accesses }
    requires plan { IfSome plan.now (λ planned. CanBeCompiled planned.statement planned.formats) }
    requires meant { HasMeaningWithSums S.has_minus (stored_statement statement.now plan.now) }
    ensures answers { Answers S.arithmetic (stored_statement statement.now plan.now) (stored_formats formats.now plan.now) result }
    ensures over { IfOk result (λ compiled. compiled.kernel.semiring ≡ semiring_of S.is_ring S.name) }
{
    match plan {
        None => compile::<S>(alloc, statement, formats),
        Some(plan) => compile::<S>(alloc, &plan.statement, plan.formats.as_slice()),
    }
}

/// A kernel for what the words ask for; or the cycle of storage orders because of which there is none.
pub(crate) fn accept<'a, S: Semiring>(
    alloc: Global,
    asked: Asked<'a>,
) -> Result<Accepted<'a>, Fault<'a>>
    requires asked { (words : List (List ℕ)) × AsksFor words (request_of asked) }
    requires over { values_of asked.over ≡ semiring S.arithmetic S.has_minus S.is_ring S.is_signed S.name }
    requires numbered { IsNumberedWithSums asked.statement }
    requires needs { needs_kernel asked.task ≡ true }
    ensures accepted { IfOk result (λ accepted. (words : List (List ℕ)) → AsksFor words (request_of asked.entry)
        → IsAccepted words (request_of accepted.asked)) }
    ensures plan { IfOk result (λ accepted. IsRunBy (request_of accepted.asked) accepted.plan) }
    ensures unplanned { IfOk result (λ accepted. needs_order asked.entry.task ≡ true → accepted.plan ≡ None) }
    ensures kernel { IfOk result (λ accepted. IsKernelOf (semiring S.arithmetic S.has_minus S.is_ring S.is_signed S.name)
        (stored_statement accepted.asked.statement accepted.plan)
        (stored_formats accepted.asked.bindings.formats.items accepted.plan) accepted.compiled.order accepted.compiled.kernel) }
    ensures task { IfOk result (λ accepted. accepted.asked.task ≡ asked.entry.task) }
    ensures numbered { IfOk result (λ accepted. IsNumberedWithSums accepted.asked.statement) }
    ensures refused { IfErr result (λ fault. (words : List (List ℕ)) → AsksFor words (request_of asked.entry) → (files : FolderState)
        → Stops (semiring S.arithmetic S.has_minus S.is_ring S.is_signed S.name) words files files fault) }
{
    let formats = asked.bindings.formats.as_slice();
    let plan = mended(alloc, asked.task, &asked.statement, formats)?;
    match compile_stored::<S>(alloc, &asked.statement, formats, &plan) {
        Ok(compiled) => Ok(Accepted {
            asked,
            plan,
            compiled,
        }),
        Err(CompileFault::Cycle(cycle)) => Err(Fault::Named {
            statement: asked.statement,
            fault: NamedFault::Cycle(cycle),
        }),
        Err(CompileFault::Memory(_)) => Err(Fault::Memory),
    }
}
