// What is printed of the accesses that are stored anew.
ghost use Rattle.std.specs.Prelude.{OnOk, IfErr, ◌∷◌, [], codes};
ghost use Rattle.std.specs.List.{flat_map};
ghost use Rattle.outside.specs.Sink.{Appends};
ghost use Rattle.result_files.specs.Writes.{PutsAll, PutsFront};
ghost use Rattle.text_lines.specs.Puts.{AppendsPart, Prints};
ghost use Rattle.reports.specs.Plans.{next_variable, variables_text, next_mode, modes_text, access_line, repack_line, plan_text};
ghost use Rattle.text_lines.specs.Pieces.{joined};

use bindings::name_at;
use index_notation::{Name, Statement};
use mode_planner::Repack;
use outside::{Refusal, Sink};
use result_files::{Text, WriteRefusal, print_text};
use text_lines::{Piece, put_all, put_pieces, put_u64};

/// Appends a variable behind a comma.
fn put_next_variable<S: Sink>(sink: &mut S, names: &[Name], number: usize) -> Result<(), Refusal>
    ensures whole { OnOk result (Appends (S.state sink.old) (S.state sink.new) (next_variable names.now number)) }
    ensures part { IfErr result (AppendsPart (S.state sink.old) (S.state sink.new) (next_variable names.now number)) }
{
    let name = name_at(names, number);
    put_pieces(sink, &[Piece::Text(b","), Piece::Text(name)])
}

/// Appends variables, each behind a comma.
fn put_next_variables<S: Sink>(
    sink: &mut S,
    names: &[Name],
    numbers: &[usize],
) -> Result<(), Refusal>
    ensures { Prints (S.state sink.old) (S.state sink.new) (flat_map (next_variable names.now) numbers.now) result }
{
    for number in numbers {
        put_next_variable(sink, names, *number)?;
    }
    Ok(())
}

/// Appends variables joined by commas.
fn put_variables<S: Sink>(sink: &mut S, names: &[Name], numbers: &[usize]) -> Result<(), Refusal>
    ensures { Prints (S.state sink.old) (S.state sink.new) (variables_text names.now numbers.now) result }
{
    let Some((first, others)) = numbers.split_first() else {
        return Ok(());
    };
    let name = name_at(names, *first);
    put_all(sink, name)?;
    put_next_variables(sink, names, others)
}

/// Appends a mode behind a comma.
fn put_next_mode<S: Sink>(sink: &mut S, mode: usize) -> Result<(), Refusal>
    ensures whole { OnOk result (Appends (S.state sink.old) (S.state sink.new) (next_mode mode)) }
    ensures part { IfErr result (AppendsPart (S.state sink.old) (S.state sink.new) (next_mode mode)) }
{
    put_pieces(sink, &[Piece::Text(b","), Piece::Number(mode as u64)])
}

/// Appends modes, each behind a comma.
fn put_next_modes<S: Sink>(sink: &mut S, modes: &[usize]) -> Result<(), Refusal>
    ensures { Prints (S.state sink.old) (S.state sink.new) (flat_map next_mode modes.now) result }
{
    for mode in modes {
        put_next_mode(sink, *mode)?;
    }
    Ok(())
}

/// Appends modes joined by commas.
fn put_modes<S: Sink>(sink: &mut S, modes: &[usize]) -> Result<(), Refusal>
    ensures { Prints (S.state sink.old) (S.state sink.new) (modes_text modes.now) result }
{
    let Some((first, others)) = modes.split_first() else {
        return Ok(());
    };
    put_u64(sink, *first as u64)?;
    put_next_modes(sink, others)
}

/// Appends what the line of an access begins with.
fn put_title<S: Sink>(sink: &mut S, name: &[u8]) -> Result<(), Refusal>
    ensures whole { OnOk result (Appends (S.state sink.old) (S.state sink.new)
        (joined (codes "repack " ∷ name.now ∷ codes "(" ∷ []))) }
    ensures part { IfErr result (AppendsPart (S.state sink.old) (S.state sink.new)
        (joined (codes "repack " ∷ name.now ∷ codes "(" ∷ []))) }
{
    put_pieces(
        sink,
        &[
            Piece::Text(b"repack "),
            Piece::Text(name),
            Piece::Text(b"("),
        ],
    )
}

/// Appends the line of an access of these variables, with modes.
fn put_access<S: Sink>(
    sink: &mut S,
    name: &[u8],
    names: &[Name],
    numbers: &[usize],
    modes: &[usize],
) -> Result<(), Refusal>
    ensures { Prints (S.state sink.old) (S.state sink.new) (access_line name.now names.now numbers.now modes.now) result }
{
    put_title(sink, name)?;
    put_variables(sink, names, numbers)?;
    put_all(sink, b") ")?;
    put_modes(sink, modes)?;
    put_all(sink, b"\n")
}

/// Appends the line of an access that is stored anew.
fn put_repack<S: Sink>(sink: &mut S, statement: &Statement, repack: &Repack) -> Result<(), Refusal>
    ensures { Prints (S.state sink.old) (S.state sink.new) (repack_line statement.now repack.now) result }
{
    let access = &repack.access;
    let name = name_at(statement.tensors.as_slice(), access.tensor);
    let names = statement.vars.as_slice();
    put_access(
        sink,
        name,
        names,
        access.vars.as_slice(),
        repack.modes.as_slice(),
    )
}

/// Appends a line for each access that is stored anew.
fn put_repacks<S: Sink>(sink: &mut S, statement: &Statement, plan: &[Repack]) -> Result<(), Refusal>
    ensures whole { OnOk result (Appends (S.state sink.old) (S.state sink.new) (plan_text statement.now plan.now)) }
    ensures part { IfErr result (AppendsPart (S.state sink.old) (S.state sink.new) (plan_text statement.now plan.now)) }
{
    for repack in plan {
        put_repack(sink, statement, repack)?;
    }
    Ok(())
}

/// The accesses of a statement that are stored anew.
#[derive(Drop)]
struct PlanReport<'a> {
    statement: &'a Statement,
    plan: &'a [Repack],
}

impl<'a> Text for PlanReport<'a> {
    ghost text = { λ r. plan_text r.statement.now r.plan.now };

    ghost may_be_put = { λ r. Unit {0} };

    fn put<K: Sink>(&self, sink: &mut K) -> Result<(), Refusal> {
        put_repacks(sink, self.statement, self.plan)
    }
}

/// Prints a line for each access of a statement that is stored anew, with the order of the modes, and finishes the output. It takes no
/// memory but what the output takes.
///
/// A fault comes only where the output counted one, and want of memory only where it counted one. A front of the text stands there after
/// a refusal.
pub fn print_plan<O: Sink>(
    out: &mut O,
    statement: &Statement,
    plan: &[Repack],
) -> Result<(), WriteRefusal>
    ensures whole { OnOk result (PutsAll (O.state out.old) (O.state out.new) (plan_text statement.now plan.now)) }
    ensures part { IfErr result (PutsFront (O.state out.old) (O.state out.new) (plan_text statement.now plan.now)) }
{
    let report = PlanReport { statement, plan };
    print_text(out, &report)
}
