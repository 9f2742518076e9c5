//! What a command line says, read by `clap`. `specs/CommandLine.antt` says it in words that name nothing of `clap`.
#![tactic(auto)]

ghost use Rattle.std.specs.Prelude.{◌≡◌, IfOk, IfErr, true, false, Some, None, map, string_bytes, [], codes, option_map, option_and_then};
ghost use Rattle.std.specs.Prelude.{unwrap_or, ◌<◌, ◌^◌};
ghost use Rattle.clap.specs.Words.{app_of, subcommand_of, subcommand_rows_of, takes, fault_of, all_of, first_of, one_of, rows_of, found_of};
ghost use Rattle.clap.specs.Words.{kind_of};
ghost use Rattle.clap.specs.Walk.{rule_of};
ghost use Rattle.clap.specs.declared.builder.command.Command.TheViews.{out-Command};
ghost use Rattle.limits.specs.Limits.{greatest_workload};
ghost use Rattle.command_line.specs.CommandLine.{command_line_of, greatest_budget, over_named};
ghost use Rattle.command_line.specs.Clap.{TakesNames, budget_app, budget_rule, exec_app, over_rule, plan_app};
ghost use Rattle.command_line.specs.Clap.{statement_app, workload_app, taco_app};
ghost use Rattle.command_line.specs.Clap.{exec_matched, matched_line, over_matched, statement_matched, task_of, u64_read};
ghost use Rattle.command_line.specs.Told.{told, IsUsage};
ghost use Rattle.command_line.specs.Law.{IsToldOf, IsUntold};

use clap::builder::ValueParser;
use clap::error::ErrorKind;
use clap::{Arg, ArgMatches, Command, value_parser};
use limits::greatest_size_of_workload;
use std::alloc::{AllocError, Global};

/// What a statement is asked for.
#[derive(Clone, Copy, Debug, PartialEq, Eq)]
pub enum Task {
    /// To write its result.
    Run,
    /// To print its kernel. No file is read.
    Kernel,
    /// To run it, and print its kernel, the turns of its loops and the storage of its tensors.
    Report,
    /// To write its result, with accesses stored in another order of their modes where the storage orders have a cycle.
    Auto,
    /// To print which accesses have to be stored in another order of their modes. No file is read.
    Plan,
}

/// The semiring over which a statement's values are added and multiplied.
#[derive(Clone, Copy, Debug, PartialEq, Eq)]
pub enum Over {
    /// Whole numbers modulo 2^64.
    Ring,
    /// Numbers below 2^64 with the least of two as their sum, and their sum, at most 2^64-1, as their product.
    MinPlus,
    /// Sets of 64 bits: the bits of either as a sum, those of both as a product.
    Bits,
}

/// What a command line says.
#[derive(Debug, Drop)]
pub enum Request<'a> {
    /// The text of EXPR, the WORDs behind it in order, what is asked for, and the semiring of the values: that of the ring where
    /// none is named.
    Statement {
        task: Task,
        over: Over,
        expr: &'a str,
        words: Vec<&'a str>,
    },
    /// N, the size of the generated workload.
    Workload {
        size: u64,
    },
    /// PATH, the file of a kernel; N, the turns that its run may take; the text of EXPR, and the WORDs behind it in order.
    Exec {
        path: &'a str,
        budget: u64,
        expr: &'a str,
        words: Vec<&'a str>,
    },
}

/// Why a command line isn't read.
#[derive(Debug, Drop)]
pub enum RequestFault {
    /// The words are no command line. A request for help is none.
    Usage,
    /// Memory was wanted.
    Memory,
}

/// The subcommand of one EXPR and any number of WORDs, and of no option.
fn plan_command<'a>(alloc: Global) -> Result<Command<'a>, AllocError>
    ensures app { IfOk result (λ c. app_of c ≡ plan_app) }
    ensures local { IfOk result (λ c. (out-Command c).has_globals ≡ false) }
{
    let expr = Arg::new(alloc, "EXPR").required(true);
    let word = Arg::new(alloc, "WORD").num_args(0..);
    let command = Command::new(alloc, "plan").arg(expr)?.arg(word)?;
    Ok(command)
}

/// The names of semirings.
const NAMES: &[&str] = &["ring", "minplus", "bits"];

/// A parser of these names alone.
fn names_parser<'a>() -> ValueParser<'a>
    ensures { TakesNames result }
{
    ValueParser::Names(NAMES)
}

/// The option that names a semiring, read by this parser.
fn over_option<'a>(alloc: Global, parser: ValueParser<'a>) -> Arg<'a>
    ensures rule { rule_of result ≡ over_rule parser.entry }
    ensures local { result.global ≡ false }
{
    Arg::new(alloc, "over").long("over").value_parser(parser)
}

/// A subcommand of one EXPR, any number of WORDs, and the option that names a semiring, read by this parser.
fn statement_command<'a>(
    alloc: Global,
    parser: ValueParser<'a>,
    name: &'a str,
) -> Result<Command<'a>, AllocError>
    ensures app { IfOk result (λ c. app_of c ≡ statement_app parser.entry name.entry.now) }
    ensures local { IfOk result (λ c. (out-Command c).has_globals ≡ false) }
{
    let expr = Arg::new(alloc, "EXPR").required(true);
    let word = Arg::new(alloc, "WORD").num_args(0..);
    let over = over_option(alloc, parser);
    let command = Command::new(alloc, name).arg(expr)?.arg(word)?.arg(over)?;
    Ok(command)
}

/// A whole number that is no greater than this one.
fn number_parser<'a>(greatest: u64) -> ValueParser<'a>
    requires { greatest < 2 ^ 63 }
    ensures { result ≡ ValueParser.Unsigned 0 greatest }
{
    value_parser!(u64).range(0..=greatest as i64)
}

/// The subcommand of one N.
fn workload_command<'a>(alloc: Global) -> Result<Command<'a>, AllocError>
    ensures app { IfOk result (λ c. app_of c ≡ workload_app) }
    ensures local { IfOk result (λ c. (out-Command c).has_globals ≡ false) }
{
    let size = Arg::new(alloc, "N")
        .required(true)
        .value_parser(number_parser(greatest_size_of_workload()));
    let command = Command::new(alloc, "gen").arg(size)?;
    Ok(command)
}

/// The greatest number of turns that the run of a kernel may be given.
fn greatest_turns() -> u64
    ensures { result ≡ greatest_budget }
{
    i64::MAX as u64
}

/// The turns that a run may be given.
fn budget_argument<'a>(alloc: Global) -> Arg<'a>
    ensures rule { rule_of result ≡ budget_rule }
    ensures local { result.global ≡ false }
{
    Arg::new(alloc, "N")
        .required(true)
        .value_parser(number_parser(greatest_turns()))
}

/// A subcommand of one PATH and one N so far.
fn budget_command<'a>(alloc: Global) -> Result<Command<'a>, AllocError>
    ensures app { IfOk result (λ c. app_of c ≡ budget_app) }
    ensures local { IfOk result (λ c. (out-Command c).has_globals ≡ false) }
{
    let path = Arg::new(alloc, "PATH").required(true);
    let budget = budget_argument(alloc);
    let command = Command::new(alloc, "exec").arg(path)?.arg(budget)?;
    Ok(command)
}

/// The subcommand of one PATH, one N, one EXPR and any number of WORDs, and of no option.
fn exec_command<'a>(alloc: Global) -> Result<Command<'a>, AllocError>
    ensures app { IfOk result (λ c. app_of c ≡ exec_app) }
    ensures local { IfOk result (λ c. (out-Command c).has_globals ≡ false) }
{
    let expr = Arg::new(alloc, "EXPR").required(true);
    let word = Arg::new(alloc, "WORD").num_args(0..);
    let command = budget_command(alloc)?.arg(expr)?.arg(word)?;
    Ok(command)
}

/// The whole command, with this parser of the names of semirings.
fn taco_command<'a>(alloc: Global, parser: ValueParser<'a>) -> Result<Command<'a>, AllocError>
    ensures app { IfOk result (λ c. app_of c ≡ taco_app parser.entry) }
{
    let run = statement_command(alloc, parser, "run")?;
    let kernel = statement_command(alloc, parser, "kernel")?;
    let report = statement_command(alloc, parser, "report")?;
    let auto = statement_command(alloc, parser, "auto")?;
    let plan = plan_command(alloc)?;
    let workload = workload_command(alloc)?;
    let exec = exec_command(alloc)?;
    let command = Command::new(alloc, "taco")
        .disable_help_flag(true)
        .disable_help_subcommand(true)
        .subcommand_required(true)
        .subcommand(run)?
        .subcommand(kernel)?
        .subcommand(report)?
        .subcommand(auto)?
        .subcommand(plan)?
        .subcommand(workload)?
        .subcommand(exec)?;
    Ok(command)
}

/// The fault of a parse.
fn fault_of_error(error: &clap::Error) -> RequestFault
    ensures { IsUsage result → kind_of error.now ≡ ErrorKind.OutOfMemory → ⊥ }
{
    match error.kind() {
        ErrorKind::OutOfMemory => RequestFault::Memory,
        _ => RequestFault::Usage,
    }
}

/// What `clap` finds in the words, with this parser of the names of semirings.
fn parse_words<'a>(
    alloc: Global,
    parser: ValueParser<'a>,
    words: &'a [String],
) -> Result<ArgMatches<'a>, RequestFault>
    ensures taken { IfOk result (λ _. fault_of (taco_app parser.entry) (map string_bytes words.now) ≡ []) }
    ensures exact { IfOk result (λ m. subcommand_rows_of m ≡ subcommand_of (taco_app parser.entry) (map string_bytes words.now)) }
    ensures fault { IfErr result (λ f. IsUsage f → fault_of (taco_app parser.entry) (map string_bytes words.now) ≡ [] → ⊥) }
{
    match taco_command(alloc, parser) {
        Ok(command) => match command.try_get_matches_from(words) {
            Ok(matches) => Ok(matches),
            Err(error) => Err(fault_of_error(&error)),
        },
        Err(_) => Err(RequestFault::Memory),
    }
}

/// The text of PATH.
fn path_of<'a>(matches: &ArgMatches<'a>) -> Option<&'a str>
    ensures { option_map (λ s. s.now) result ≡ first_of (codes "PATH") (rows_of (found_of matches.now)) }
{
    matches.get_str("PATH")
}

/// The text of EXPR.
fn expr_of<'a>(matches: &ArgMatches<'a>) -> Option<&'a str>
    ensures { option_map (λ s. s.now) result ≡ first_of (codes "EXPR") (rows_of (found_of matches.now)) }
{
    matches.get_str("EXPR")
}

/// The semiring of a name.
fn semiring_named(name: &str) -> Option<Over>
    ensures { result ≡ over_named name.now }
{
    match name {
        "ring" => Some(Over::Ring),
        "minplus" => Some(Over::MinPlus),
        "bits" => Some(Over::Bits),
        _ => None,
    }
}

/// The semiring that is named, or the ring.
fn over_of(matches: &ArgMatches<'_>) -> Option<Over>
    ensures { result ≡ over_matched (rows_of (found_of matches.now)) }
{
    match matches.get_str("over") {
        Some(name) => semiring_named(name),
        None => Some(Over::Ring),
    }
}

/// The WORDs.
fn words_of<'a>(alloc: Global, matches: &ArgMatches<'a>) -> Result<Vec<&'a str>, AllocError>
    ensures { IfOk result (λ v. map (λ w. w.now) v.items ≡ unwrap_or (all_of (codes "WORD") (rows_of (found_of matches.now))) []) }
{
    match matches.get_strs("WORD") {
        Some(words) => Vec::from_slice(alloc, words),
        None => Ok(Vec::new(alloc)),
    }
}

/// The number N.
fn number_of(matches: &ArgMatches<'_>) -> Option<u64>
    ensures { result ≡ option_and_then u64_read (one_of (codes "N") (rows_of (found_of matches.now))) }
{
    matches.get_one::<u64>("N")
}

/// The task that a subcommand's name asks for.
fn task_named(name: &str) -> Option<Task>
    ensures { result ≡ task_of name.now }
{
    match name {
        "run" => Some(Task::Run),
        "kernel" => Some(Task::Kernel),
        "report" => Some(Task::Report),
        "auto" => Some(Task::Auto),
        "plan" => Some(Task::Plan),
        _ => None,
    }
}

/// The statement that the matches of a subcommand say.
fn statement_of<'a>(
    alloc: Global,
    task: Task,
    matches: &ArgMatches<'a>,
) -> Result<Option<Request<'a>>, AllocError>
    ensures { IfOk result (λ r. option_map told r ≡ statement_matched task (rows_of (found_of matches.now))) }
{
    let words = words_of(alloc, matches)?;
    match (over_of(matches), expr_of(matches)) {
        (Some(over), Some(expr)) => Ok(Some(Request::Statement {
            task,
            over,
            expr,
            words,
        })),
        _ => Ok(None),
    }
}

/// The run of a kernel's file that the matches of a subcommand say.
fn exec_of<'a>(alloc: Global, matches: &ArgMatches<'a>) -> Result<Option<Request<'a>>, AllocError>
    ensures { IfOk result (λ r. option_map told r ≡ exec_matched (rows_of (found_of matches.now))) }
{
    let words = words_of(alloc, matches)?;
    match (path_of(matches), number_of(matches), expr_of(matches)) {
        (Some(path), Some(budget), Some(expr)) => Ok(Some(Request::Exec {
            path,
            budget,
            expr,
            words,
        })),
        _ => Ok(None),
    }
}

/// What the matches of a subcommand say, by its name.
fn request_of<'a>(
    alloc: Global,
    name: &str,
    matches: &ArgMatches<'a>,
) -> Result<Option<Request<'a>>, AllocError>
    ensures { IfOk result (λ r. option_map told r ≡ matched_line (name.now, rows_of (found_of matches.now))) }
{
    if name == "gen" {
        return Ok(number_of(matches).map(|size| Request::Workload { size }));
    }
    if name == "exec" {
        return exec_of(alloc, matches);
    }
    match task_named(name) {
        Some(task) => statement_of(alloc, task, matches),
        None => Ok(None),
    }
}

/// What the matches of the whole command say.
fn matched<'a>(alloc: Global, matches: &ArgMatches<'a>) -> Result<Option<Request<'a>>, AllocError>
    ensures { IfOk result (λ r. option_map told r ≡ option_and_then matched_line (subcommand_rows_of matches.now)) }
{
    match matches.subcommand() {
        Some((name, inner)) => request_of(alloc, name, inner),
        None => Ok(None),
    }
}

/// Reads the command line, whose first word is the program's name. Usage exactly where the words are no command line, but
/// memory may be wanted of each.
pub fn read_request<'a>(alloc: Global, words: &'a [String]) -> Result<Request<'a>, RequestFault>
    // In plain words.
    ensures told { IfOk result (λ r. command_line_of (map string_bytes words.now) ≡ Some (told r)) }
    ensures untold { IfErr result (λ f. IsUsage f → command_line_of (map string_bytes words.now) ≡ None) }

    // In the words of `clap`, by any parser of the names of semirings.
    ensures exact { IfOk result (λ r. IsToldOf (told r) (map string_bytes words.now)) }
    ensures refused { IfErr result (λ f. IsUsage f → IsUntold (map string_bytes words.now)) }
{
    match parse_words(alloc, names_parser(), words) {
        Ok(matches) => match matched(alloc, &matches) {
            Ok(Some(request)) => Ok(request),
            Ok(None) => Err(RequestFault::Usage),
            Err(_) => Err(RequestFault::Memory),
        },
        Err(fault) => Err(fault),
    }
}
