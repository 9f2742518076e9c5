//! The top call.
ghost use Rattle.std.specs.Prelude.{◌≡◌, ◌⊎◌, ℕ, List, map, string_bytes, true};
ghost use Rattle.command_line.specs.declared.Task.TheVariants as task;
ghost use Rattle.index_notation.specs.Statement.{IsNumberedWithSums};
ghost use Rattle.outside.specs.Folder.{FolderState};
ghost use Rattle.refusals.specs.Lines.{status_of, line_of};
ghost use Rattle.taco_top.specs.Asked.{writes_result};
ghost use Rattle.taco_top.specs.Ends.{Cause, Ends, PutsLine};
ghost use Rattle.taco_top.specs.Executing.{EndsExec};
ghost use Rattle.taco_top.specs.Run.{AsksFor, request_of};
ghost use Rattle.taco_top.specs.Prepared.{end_of};
ghost use Rattle.taco_top.specs.Values.{semiring, values_of, values_in};

use crate::asked::{Asked, Work, ask};
use crate::asking::accept;
use crate::computing::compute;
use crate::ending::Done;
use crate::executing::execute;
use crate::printing::{tell_kernel, tell_plan, tell_run, tell_workload};
use crate::writing::write;
use command_line::{Over, Task};
use numbers::{Ring, Semiring};
use outside::{Folder, Sink};
use refusals::{Fault, put_line};
use reports::put_turns;
use semirings::{Bits, MinPlus};
use std::alloc::Global;

/// Writes the result of what the words ask for, with storage orders mended where the task does so.
fn run<'a, S: Semiring, F: Folder, O: Sink>(
    alloc: Global,
    asked: Asked<'a>,
    files: &mut F,
    out: &mut O,
) -> Result<Done, Fault<'a>>
    requires asked { (words : List (List ℕ)) × AsksFor words (request_of asked) }
    requires over { values_of asked.over ≡ semiring S.arithmetic S.has_minus S.is_ring S.is_signed S.name }
    requires numbered { IsNumberedWithSums asked.statement }
    requires task { writes_result asked.task ≡ true }
    ensures { (words : List (List ℕ)) → AsksFor words (request_of asked.entry)
        → Cause (semiring S.arithmetic S.has_minus S.is_ring S.is_signed S.name) words (F.state files.old) (F.state files.new)
        (O.state out.old) (O.state out.new) (end_of result) }
{
    let accepted = match accept::<S>(alloc, asked) {
        Ok(accepted) => accepted,
        Err(fault) => return Err(fault),
    };
    match compute::<S, F>(alloc, accepted, files) {
        Ok(computed) => write::<S, F, O>(files, out, &computed),
        Err(fault) => Err(fault),
    }
}

/// Prints the kernel of what the words ask for.
fn kernel<'a, S: Semiring, O: Sink>(
    alloc: Global,
    asked: Asked<'a>,
    out: &mut O,
) -> Result<Done, Fault<'a>>
    requires asked { (words : List (List ℕ)) × AsksFor words (request_of asked) }
    requires over { values_of asked.over ≡ semiring S.arithmetic S.has_minus S.is_ring S.is_signed S.name }
    requires numbered { IsNumberedWithSums asked.statement }
    requires task { asked.task ≡ task.Kernel }
    ensures { (words : List (List ℕ)) (files : FolderState) → AsksFor words (request_of asked.entry)
        → Cause (semiring S.arithmetic S.has_minus S.is_ring S.is_signed S.name) words files files (O.state out.old) (O.state out.new)
        (end_of result) }
{
    match accept::<S>(alloc, asked) {
        Ok(accepted) => tell_kernel(out, &accepted),
        Err(fault) => Err(fault),
    }
}

/// Prints a report of the run of what the words ask for.
fn report<'a, S: Semiring, F: Folder, O: Sink>(
    alloc: Global,
    asked: Asked<'a>,
    files: &mut F,
    out: &mut O,
) -> Result<Done, Fault<'a>>
    requires asked { (words : List (List ℕ)) × AsksFor words (request_of asked) }
    requires over { values_of asked.over ≡ semiring S.arithmetic S.has_minus S.is_ring S.is_signed S.name }
    requires numbered { IsNumberedWithSums asked.statement }
    requires task { asked.task ≡ task.Report }
    ensures { (words : List (List ℕ)) → AsksFor words (request_of asked.entry)
        → Cause (semiring S.arithmetic S.has_minus S.is_ring S.is_signed S.name) words (F.state files.old) (F.state files.new)
        (O.state out.old) (O.state out.new) (end_of result) }
{
    let accepted = match accept::<S>(alloc, asked) {
        Ok(accepted) => accepted,
        Err(fault) => return Err(fault),
    };
    match compute::<S, F>(alloc, accepted, files) {
        Ok(computed) => tell_run::<S, O>(out, &computed),
        Err(fault) => Err(fault),
    }
}

/// Does what the words ask for with a statement, over a semiring.
fn answer_over<'a, S: Semiring, F: Folder, O: Sink>(
    alloc: Global,
    asked: Asked<'a>,
    files: &mut F,
    out: &mut O,
) -> Result<Done, Fault<'a>>
    requires asked { (words : List (List ℕ)) × AsksFor words (request_of asked) }
    requires over { values_of asked.over ≡ semiring S.arithmetic S.has_minus S.is_ring S.is_signed S.name }
    requires numbered { IsNumberedWithSums asked.statement }
    ensures { (words : List (List ℕ)) → AsksFor words (request_of asked.entry)
        → Cause (semiring S.arithmetic S.has_minus S.is_ring S.is_signed S.name) words (F.state files.old) (F.state files.new)
        (O.state out.old) (O.state out.new) (end_of result) }
{
    match asked.task {
        Task::Run | Task::Auto => run::<S, F, O>(alloc, asked, files, out),
        Task::Kernel => kernel::<S, O>(alloc, asked, out),
        Task::Report => report::<S, F, O>(alloc, asked, files, out),
        Task::Plan => tell_plan(alloc, out, &asked),
    }
}

/// Does what the words ask for with a statement, over the semiring that they name.
fn answer_statement<'a, F: Folder, O: Sink>(
    alloc: Global,
    asked: Asked<'a>,
    files: &mut F,
    out: &mut O,
) -> Result<Done, Fault<'a>>
    requires asked { (words : List (List ℕ)) × AsksFor words (request_of asked) }
    requires numbered { IsNumberedWithSums asked.statement }
    ensures { (words : List (List ℕ)) → AsksFor words (request_of asked.entry)
        → Cause (values_of asked.entry.over) words (F.state files.old) (F.state files.new) (O.state out.old) (O.state out.new)
        (end_of result) }
{
    match asked.over {
        Over::Ring => answer_over::<Ring, F, O>(alloc, asked, files, out),
        Over::MinPlus => answer_over::<MinPlus, F, O>(alloc, asked, files, out),
        Over::Bits => answer_over::<Bits, F, O>(alloc, asked, files, out),
    }
}

/// Does what the words say.
fn answer<'a, F: Folder, O: Sink>(
    alloc: Global,
    words: &'a [String],
    files: &mut F,
    out: &mut O,
) -> Result<Done, Fault<'a>>
    ensures { Cause (values_in (map string_bytes words.now)) (map string_bytes words.now) (F.state files.old) (F.state files.new)
        (O.state out.old) (O.state out.new) (end_of result)
        ⊎ EndsExec (map string_bytes words.now) (F.state files.old) (F.state files.new) (O.state out.old) (O.state out.new) result }
{
    match ask(alloc, words) {
        Ok(Work::Statement(asked)) => answer_statement(alloc, asked, files, out),
        Ok(Work::Workload(size)) => tell_workload(alloc, size, out),
        Ok(Work::Execution(execution)) => execute(alloc, execution, files, out),
        Err(fault) => Err(fault),
    }
}

/// Tells a fault on standard error, and answers its status.
pub(crate) fn refuse<E: Sink>(err: &mut E, fault: &Fault<'_>) -> u8
    ensures status { result ≡ status_of fault.now }
    ensures line { PutsLine (E.state err.old) (E.state err.new) (line_of fault.now) }
{
    let _ = put_line(err, fault);
    fault.status()
}

/// All that the program does, and its status: 0 done, 1 refused input, 2 no command line, 3 read fault, 4 write fault, 5 want
/// of memory, 6 a limit is passed. `words` is the command line with the program's name first. A result goes to `out`, or with
/// a path into its file; the text of another command goes to `out`. A line goes to `err`: of a refusal, or of the turns of the run
/// whose result was written.
pub fn taco<F: Folder, O: Sink, E: Sink>(
    alloc: Global,
    words: &[String],
    files: &mut F,
    out: &mut O,
    err: &mut E,
) -> u8
    // The status has its cause: the first refusal in order of the words, the operands' files as reads gave them, ranges and
    // sizes, and the writing; or the file of the statement's values was written; or the text of a kernel, of a run or of a workload
    // was printed; or the file of what a given kernel left was written. `err` grew by the line of it, or by a part of that line, and
    // stays as it was beside a printed text.
    ensures { Ends words.now (F.state files.old) (F.state files.new) (O.state out.old) (O.state out.new)
        (E.state err.old) (E.state err.new) result }
{
    match answer(alloc, words, files, out) {
        Ok(Done::Written(turns)) => {
            let _ = put_turns(err, &turns);
            0
        }
        Ok(Done::Printed) => 0,
        Err(fault) => refuse(err, &fault),
    }
}
