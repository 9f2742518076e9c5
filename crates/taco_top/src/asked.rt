ghost use Rattle.std.specs.Prelude.{◌≡◌, ℕ, Bool, true, List, Some, None, map, string_bytes, IfOk, IfErr, OnOk, MatchResult, IsTrue};
ghost use Rattle.notation_grammar.specs.Notation.{IsNotationOf};
ghost use Rattle.index_notation.specs.Statement.{IsNumberedWithSums};
ghost use Rattle.command_line.specs.CommandLine.{command_line_of};
ghost use Rattle.command_line.specs.Told.{told};
ghost use Rattle.bindings.specs.Tables.{file_in};
ghost use Rattle.bindings.specs.Outcome.{Binds};
ghost use Rattle.taco_top.specs.Asked.{AreNamed, Asks, AsksOf, IsRefusedByWords, IsLineRefused, IsStatementRefused};
ghost use Rattle.taco_top.specs.Work.{IsAsked, IsUnasked};
ghost use Rattle.taco_top.specs.Exec.{AsksExec, AsksExecOf, IsExecRefused, exec_request};
ghost use Rattle.taco_top.specs.Asked.{IsBindingRefused, IsMinusRefused, needs_files, texts_in};
ghost use Rattle.taco_top.specs.Values.{values_of};
ghost use Rattle.nested_sums.specs.Pieces.{HasMeaningWithSums};
ghost use Rattle.refusals.specs.declared.fault.Fault.TheVariants.{Named};

use bindings::{BindingFault, Bindings, bind};
use command_line::{Over, Request, RequestFault, Task, read_request};
use expr_terms::{check_names, expand};
use index_notation::Statement;
use nested_sums::{check_sums, has_meaning_with_sums};
use notation_grammar::NotationFault;
use notation_reader::parse;
use numbers::{Ring, Semiring};
use refusals::{Fault, NamedFault};
use semirings::{Bits, MinPlus};
use std::alloc::Global;

/// A statement as it stands for the written one, what is asked for it, the semiring of its values, and what the words bind to its names.
#[derive(Drop)]
pub struct Asked<'a> {
    pub task: Task,
    pub over: Over,
    pub statement: Statement,
    pub bindings: Bindings<'a>,
}

/// The path of a kernel's file, the turns that its run may take, a statement as it stands for the written one, and what the words bind
/// to its names.
#[derive(Drop)]
pub struct Execution<'a> {
    pub path: &'a str,
    pub budget: u64,
    pub statement: Statement,
    pub bindings: Bindings<'a>,
}

/// What the command line asks for.
#[derive(Drop)]
pub enum Work<'a> {
    /// A task of a statement.
    Statement(Asked<'a>),
    /// The generated workload of this size.
    Workload(u64),
    /// The run of a given kernel.
    Execution(Execution<'a>),
}

/// What the command line says, as the program's faults tell where it says nothing.
fn read_words<'a>(alloc: Global, words: &'a [String]) -> Result<Request<'a>, Fault<'a>>
    ensures { MatchResult result
        (λ request. command_line_of (map string_bytes words.now) ≡ Some (told request))
        (IsLineRefused (map string_bytes words.now)) }
{
    match read_request(alloc, words) {
        Ok(request) => Ok(request),
        Err(RequestFault::Usage) => Err(Fault::Usage),
        Err(RequestFault::Memory) => Err(Fault::Memory),
    }
}

/// Whether a task reads the operands' files. A kernel and a plan are printed without a look at them.
fn reads_files(task: Task) -> bool
    ensures { result ≡ needs_files task }
{
    match task {
        Task::Run | Task::Report | Task::Auto => true,
        Task::Kernel | Task::Plan => false,
    }
}

/// The statement of a text, as the program's faults tell what it isn't.
fn read_statement<'a>(alloc: Global, text: &str) -> Result<Statement, Fault<'a>>
    ensures statement { IfOk result (λ s. IsNotationOf text.now s × IsNumberedWithSums s) }
    ensures refused { IfErr result (IsStatementRefused text.now) }
{
    match parse(alloc, text) {
        Ok(statement) => Ok(statement),
        Err(NotationFault::Memory(_)) => Err(Fault::Memory),
        Err(fault) => Err(Fault::Notation(fault)),
    }
}

/// The statement that a text stands for, whose names are in order, as the program's faults tell what it isn't.
fn named_statement<'a>(alloc: Global, text: &str) -> Result<Statement, Fault<'a>>
    ensures statement { IfOk result (λ s. AreNamed text.now s × IsNumberedWithSums s) }
    ensures refused { IfErr result (IsStatementRefused text.now) }
{
    let written = read_statement(alloc, text)?;
    if let Err(fault) = check_names(&written) {
        return Err(named(written, NamedFault::Name(fault)));
    }
    let statement = expand(alloc, written)?;
    match check_sums(&statement) {
        Ok(()) => Ok(statement),
        Err(fault) => Err(named(statement, NamedFault::Name(fault))),
    }
}

/// Whether each minus that stands in a statement, inside of its sums too, has a meaning over a semiring.
fn has_meaning_over(over: Over, statement: &Statement) -> bool
    ensures told { IsTrue result → HasMeaningWithSums (values_of over).has_minus statement.now }
    ensures found { HasMeaningWithSums (values_of over).has_minus statement.now → IsTrue result }
{
    match over {
        Over::Ring => has_meaning_with_sums::<Ring>(statement),
        Over::MinPlus => has_meaning_with_sums::<MinPlus>(statement),
        Over::Bits => has_meaning_with_sums::<Bits>(statement),
    }
}

/// The name of a semiring.
fn name_of(over: Over) -> &'static str
    ensures { result.now ≡ (values_of over).name }
{
    match over {
        Over::Ring => Ring::name(),
        Over::MinPlus => MinPlus::name(),
        Over::Bits => Bits::name(),
    }
}

/// Refused where a minus stands on the right of a statement, and the semiring has none.
fn check_minus<'a>(over: Over, statement: &Statement) -> Result<(), Fault<'a>>
    ensures meant { OnOk result (HasMeaningWithSums (values_of over).has_minus statement.now) }
    ensures refused { IfErr result (IsMinusRefused over statement.now) }
{
    if has_meaning_over(over, statement) {
        Ok(())
    } else {
        Err(Fault::NoMinus(name_of(over)))
    }
}

/// What the words bind to the names of a statement, as the program's faults tell where they bind nothing.
fn bind_names<'a>(
    alloc: Global,
    task: Task,
    over: Over,
    statement: Statement,
    words: &[&'a str],
) -> Result<Asked<'a>, Fault<'a>>
    requires { IsNumberedWithSums statement }
    ensures { MatchResult result
        (λ asked. (asked.task ≡ task) × (asked.over ≡ over) × (asked.statement ≡ statement)
        × Binds statement (texts_in words.now) (needs_files task)
        asked.bindings.formats.items (map file_in asked.bindings.files.entries) asked.bindings.ranges.items)
        (IsBindingRefused statement (texts_in words.now) (needs_files task)) }
{
    match bind(alloc, &statement, words, reads_files(task)) {
        Ok(bindings) => Ok(Asked {
            task,
            over,
            statement,
            bindings,
        }),
        Err(BindingFault::Memory(_)) => Err(Fault::Memory),
        Err(fault) => Err(named(statement, NamedFault::Binding(fault))),
    }
}

/// A fault that is told by names of a statement.
fn named<'a>(statement: Statement, fault: NamedFault) -> Fault<'a>
    ensures { result ≡ Named statement fault }
{
    Fault::Named { statement, fault }
}

/// What a command line asks for that asks this task of a statement of this text.
fn ask_statement<'a>(
    alloc: Global,
    task: Task,
    over: Over,
    text: &str,
    words: &[&'a str],
) -> Result<Asked<'a>, Fault<'a>>
    ensures { (all : List (List ℕ)) → AsksOf all task over text.now (texts_in words.now)
        → MatchResult result (λ asked. Asks all asked.task asked.over asked.statement asked.bindings.formats.items
        (map file_in asked.bindings.files.entries) asked.bindings.ranges.items × IsNumberedWithSums asked.statement)
        (IsRefusedByWords all) }
{
    let statement = named_statement(alloc, text)?;
    check_minus(over, &statement)?;
    bind_names(alloc, task, over, statement, words)
}

/// What a kernel's file is run for, where the words behind a statement, of which all tensors but the result need files, bind its names.
fn bind_execution<'a>(
    alloc: Global,
    path: &'a str,
    budget: u64,
    statement: Statement,
    words: &[&'a str],
) -> Result<Execution<'a>, Fault<'a>>
    requires { IsNumberedWithSums statement }
    ensures { MatchResult result
        (λ e. (e.path.now ≡ path.entry.now) × (e.budget ≡ budget) × (e.statement ≡ statement)
        × Binds statement (texts_in words.now) true
        e.bindings.formats.items (map file_in e.bindings.files.entries) e.bindings.ranges.items)
        (IsBindingRefused statement (texts_in words.now) true) }
{
    match bind(alloc, &statement, words, true) {
        Ok(bindings) => Ok(Execution {
            path,
            budget,
            statement,
            bindings,
        }),
        Err(BindingFault::Memory(_)) => Err(Fault::Memory),
        Err(fault) => Err(named(statement, NamedFault::Binding(fault))),
    }
}

/// What a command line asks for that asks to run a kernel's file for a statement of this text. A minus is taken over any semiring.
fn ask_execution<'a>(
    alloc: Global,
    path: &'a str,
    budget: u64,
    text: &str,
    words: &[&'a str],
) -> Result<Execution<'a>, Fault<'a>>
    ensures { (all : List (List ℕ)) → AsksExecOf all path.entry.now budget text.now (texts_in words.now)
        → MatchResult result (λ e. AsksExec all (exec_request e) × IsNumberedWithSums e.statement) (IsExecRefused all) }
{
    let statement = named_statement(alloc, text)?;
    bind_execution(alloc, path, budget, statement, words)
}

/// What the words of the command line ask for, or the first refusal in order: of the command line, the statement's text, its
/// names, a minus that the named semiring has no meaning for, the words behind it, missing files where the task reads them, formats.
/// Refused for want of memory besides.
pub(crate) fn ask<'a>(alloc: Global, words: &'a [String]) -> Result<Work<'a>, Fault<'a>>
    ensures asked { IfOk result (IsAsked (map string_bytes words.now)) }
    ensures refused { IfErr result (IsUnasked (map string_bytes words.now)) }
{
    match read_words(alloc, words)? {
        Request::Statement {
            task,
            over,
            expr,
            words,
        } => {
            let asked = ask_statement(alloc, task, over, expr, words.as_slice())?;
            Ok(Work::Statement(asked))
        }
        Request::Workload { size } => Ok(Work::Workload(size)),
        Request::Exec {
            path,
            budget,
            expr,
            words,
        } => {
            let execution = ask_execution(alloc, path, budget, expr, words.as_slice())?;
            Ok(Work::Execution(execution))
        }
    }
}
