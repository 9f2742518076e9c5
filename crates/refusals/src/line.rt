// The line of each fault.
ghost use Rattle.std.specs.Prelude.{◌≡◌, OnOk, IfErr, [], ◌∷◌};
ghost use Rattle.outside.specs.Sink.{Appends};
ghost use Rattle.text_lines.specs.Puts.{AppendsPart};
ghost use Rattle.bindings.specs.Names.{name_at};
ghost use Rattle.bindings.specs.declared.fault.WordFault.TheVariants.{RangeLimit};
ghost use Rattle.notation_grammar.specs.declared.fault.NotationFault.TheVariants as notation;
ghost use Rattle.refusals.specs.Lines.{of_word, of_name, limit_at, too_many_at, notation_line, name_line, word_line, bad_format_text};
ghost use Rattle.refusals.specs.Lines.{binding_line, no_range_text, conflict_text, above_text, range_line, size_text, workspace_text};
ghost use Rattle.refusals.specs.Lines.{names_behind, cycle_text, named_line, no_minus_text, kind_text, file_bytes_text};
ghost use Rattle.refusals.specs.Lines.{bad_line_text, line_of};
ghost use Rattle.refusals.specs.Lines.{kernel_line_text, trap_text, budget_text, kernel_line};
ghost use Rattle.refusals.specs.declared.fault.Fault.TheVariants as fault;

use crate::fault::{Fault, KernelFault, NamedFault};
use bindings::{BindingFault, WordFault, name_at};
use expr_terms::{NameFault, RangeFault};
use format_spec::FormatFault;
use index_notation::{Name, Statement};
use limits::{
    greatest_accesses_of_statement, greatest_bytes_of_file, greatest_bytes_of_text,
    greatest_literal_of_expression, greatest_nesting_of_expression, greatest_operands_of_statement,
    greatest_order_of_tensor, greatest_range_in_word, greatest_variables_of_statement,
};
use notation_grammar::{Counted, NotationFault};
use outside::{Refusal, Sink};
use text_lines::{LineKind, Piece, put_all, put_pieces};

const MEMORY: &[u8] = b"taco: out of memory\n";

const USAGE: &[u8] =
    b"usage: taco run [--over S] EXPR WORD.. | taco kernel [--over S] EXPR WORD.. | \
      taco report [--over S] EXPR WORD.. | taco gen N | taco auto [--over S] EXPR WORD.. | \
      taco plan EXPR WORD.. | taco exec PATH N EXPR WORD..\n";

/// What is wrong with a format.
fn text_of_format(fault: FormatFault) -> &'static [u8]
    ensures { result.now ≡ bad_format_text fault }
{
    match fault {
        FormatFault::BadLetter => b": bad format: letter\n",
        FormatFault::BadLength => b": bad format: length\n",
        FormatFault::BadOrder => b": bad format: order\n",
        FormatFault::BadChain => b": bad format: chain\n",
        FormatFault::BelowHashed => b": bad format: below h\n",
    }
}

/// What is wrong with a line.
fn text_of_kind(kind: LineKind) -> &'static [u8]
    ensures { result.now ≡ kind_text kind }
{
    match kind {
        LineKind::LongLine => b": LongLine\n",
        LineKind::BadBanner => b": BadBanner\n",
        LineKind::NoMinus => b": NoMinus\n",
        LineKind::BadSize => b": BadSize\n",
        LineKind::Extra => b": Extra\n",
        LineKind::Fields => b": Fields\n",
        LineKind::NotNumber => b": NotNumber\n",
        LineKind::NotWhole => b": NotWhole\n",
        LineKind::NumRange => b": NumRange\n",
        LineKind::ZeroCoordinate => b": ZeroCoordinate\n",
        LineKind::CoordRange => b": CoordRange\n",
        LineKind::SkewDiagonal => b": SkewDiagonal\n",
        LineKind::Negative => b": Negative\n",
        LineKind::Truncated => b": Truncated\n",
    }
}

/// Appends the line of a text that passes a limit at this byte, which stands between these words.
fn put_limit_at<'x, S: Sink>(
    sink: &mut S,
    before: &'x [u8],
    limit: u64,
    behind: &'x [u8],
    at: usize,
) -> Result<(), Refusal>
    ensures whole { OnOk result (Appends (S.state sink.old) (S.state sink.new) (limit_at before.now limit behind.now at)) }
    ensures part { IfErr result (AppendsPart (S.state sink.old) (S.state sink.new) (limit_at before.now limit behind.now at)) }
{
    let pieces = [
        Piece::Text(b"taco: "),
        Piece::Text(before),
        Piece::Number(limit),
        Piece::Text(behind),
        Piece::Text(b" at byte "),
        Piece::Number(at as u64),
        Piece::Text(b"\n"),
    ];
    put_pieces(sink, &pieces)
}

/// Appends the line of a text that has too many of something at this byte.
fn put_too_many<S: Sink>(sink: &mut S, what: Counted, at: usize) -> Result<(), Refusal>
    ensures whole { OnOk result (Appends (S.state sink.old) (S.state sink.new) (too_many_at what at)) }
    ensures part { IfErr result (AppendsPart (S.state sink.old) (S.state sink.new) (too_many_at what at)) }
{
    match what {
        Counted::Order => put_limit_at(sink, b"order above ", greatest_order_of_tensor(), b"", at),
        Counted::Variables => {
            let limit = greatest_variables_of_statement();
            put_limit_at(sink, b"more than ", limit, b" variables", at)
        }
        Counted::Accesses => {
            let limit = greatest_accesses_of_statement();
            put_limit_at(sink, b"more than ", limit, b" accesses", at)
        }
        Counted::Operands => {
            let limit = greatest_operands_of_statement();
            put_limit_at(sink, b"more than ", limit, b" operands", at)
        }
    }
}

/// Appends the line of a text that is too long.
fn put_too_long<S: Sink>(sink: &mut S) -> Result<(), Refusal>
    ensures whole { OnOk result (Appends (S.state sink.old) (S.state sink.new) (notation_line notation.TextLength)) }
    ensures part { IfErr result (AppendsPart (S.state sink.old) (S.state sink.new) (notation_line notation.TextLength)) }
{
    let pieces = [
        Piece::Text(b"taco: expression longer than "),
        Piece::Number(greatest_bytes_of_text()),
        Piece::Text(b" bytes\n"),
    ];
    put_pieces(sink, &pieces)
}

/// Appends the line of a text that no sentence begins with up to this byte.
fn put_bad_notation<S: Sink>(sink: &mut S, at: usize) -> Result<(), Refusal>
    ensures whole { OnOk result (Appends (S.state sink.old) (S.state sink.new) (notation_line (notation.BadNotation at))) }
    ensures part { IfErr result (AppendsPart (S.state sink.old) (S.state sink.new) (notation_line (notation.BadNotation at))) }
{
    let pieces = [
        Piece::Text(b"taco: bad notation at byte "),
        Piece::Number(at as u64),
        Piece::Text(b"\n"),
    ];
    put_pieces(sink, &pieces)
}

/// Appends the line of a text that opens too many levels at this byte.
fn put_too_deep<S: Sink>(sink: &mut S, at: usize) -> Result<(), Refusal>
    ensures whole { OnOk result (Appends (S.state sink.old) (S.state sink.new) (notation_line (notation.TooDeep at))) }
    ensures part { IfErr result (AppendsPart (S.state sink.old) (S.state sink.new) (notation_line (notation.TooDeep at))) }
{
    put_limit_at(
        sink,
        b"nesting deeper than ",
        greatest_nesting_of_expression(),
        b"",
        at,
    )
}

/// Appends the line of a text with a number at this byte that is too great.
fn put_above_literal<S: Sink>(sink: &mut S, at: usize) -> Result<(), Refusal>
    ensures whole { OnOk result (Appends (S.state sink.old) (S.state sink.new) (notation_line (notation.LiteralRange at))) }
    ensures part { IfErr result (AppendsPart (S.state sink.old) (S.state sink.new) (notation_line (notation.LiteralRange at))) }
{
    put_limit_at(
        sink,
        b"literal above ",
        greatest_literal_of_expression(),
        b"",
        at,
    )
}

/// Appends the line of a text that is no statement.
fn put_notation_line<S: Sink>(sink: &mut S, fault: &NotationFault) -> Result<(), Refusal>
    ensures whole { OnOk result (Appends (S.state sink.old) (S.state sink.new) (notation_line fault.now)) }
    ensures part { IfErr result (AppendsPart (S.state sink.old) (S.state sink.new) (notation_line fault.now)) }
{
    match fault {
        NotationFault::TextLength => put_too_long(sink),
        NotationFault::BadNotation { at } => put_bad_notation(sink, *at),
        NotationFault::TooDeep { at } => put_too_deep(sink, *at),
        NotationFault::TooMany { what, at } => put_too_many(sink, *what, *at),
        NotationFault::LiteralRange { at } => put_above_literal(sink, *at),
        NotationFault::Memory(_) => put_all(sink, MEMORY),
    }
}

/// Appends the line that says this of a word.
fn put_of_word<S: Sink>(sink: &mut S, word: usize, text: &[u8]) -> Result<(), Refusal>
    ensures whole { OnOk result (Appends (S.state sink.old) (S.state sink.new) (of_word word (text.now ∷ []))) }
    ensures part { IfErr result (AppendsPart (S.state sink.old) (S.state sink.new) (of_word word (text.now ∷ []))) }
{
    let pieces = [
        Piece::Text(b"taco: word "),
        Piece::Number(word as u64),
        Piece::Text(text),
    ];
    put_pieces(sink, &pieces)
}

/// Appends the line of a word whose range is above the limit.
fn put_above_range<S: Sink>(sink: &mut S, word: usize) -> Result<(), Refusal>
    ensures whole { OnOk result (Appends (S.state sink.old) (S.state sink.new) (word_line word RangeLimit)) }
    ensures part { IfErr result (AppendsPart (S.state sink.old) (S.state sink.new) (word_line word RangeLimit)) }
{
    let pieces = [
        Piece::Text(b"taco: word "),
        Piece::Number(word as u64),
        Piece::Text(b": range above "),
        Piece::Number(greatest_range_in_word()),
        Piece::Text(b"\n"),
    ];
    put_pieces(sink, &pieces)
}

/// Appends the line of a word that binds nothing.
fn put_word_line<S: Sink>(sink: &mut S, word: usize, fault: WordFault) -> Result<(), Refusal>
    ensures whole { OnOk result (Appends (S.state sink.old) (S.state sink.new) (word_line word fault)) }
    ensures part { IfErr result (AppendsPart (S.state sink.old) (S.state sink.new) (word_line word fault)) }
{
    match fault {
        WordFault::BadBinding => put_of_word(sink, word, b": not a binding\n"),
        WordFault::UnknownName => put_of_word(sink, word, b": no such name\n"),
        WordFault::Twice => put_of_word(sink, word, b": bound twice\n"),
        WordFault::NotMatrix => put_of_word(sink, word, b": .mtx needs order 1 or 2\n"),
        WordFault::RangeLimit => put_above_range(sink, word),
    }
}

/// Appends the line that says this of a path.
fn put_of_path<'x, S: Sink>(sink: &mut S, path: &'x str, text: &'x [u8]) -> Result<(), Refusal>
    ensures whole { OnOk result (Appends (S.state sink.old) (S.state sink.new) (of_name path.now (text.now ∷ []))) }
    ensures part { IfErr result (AppendsPart (S.state sink.old) (S.state sink.new) (of_name path.now (text.now ∷ []))) }
{
    put_pieces(
        sink,
        &[
            Piece::Text(b"taco: "),
            Piece::Text(path.as_bytes()),
            Piece::Text(text),
        ],
    )
}

/// Appends the line of a file with more bytes than this.
fn put_file_bytes<S: Sink>(sink: &mut S, path: &str, limit: u64) -> Result<(), Refusal>
    ensures whole { OnOk result (Appends (S.state sink.old) (S.state sink.new) (file_bytes_text path.now limit)) }
    ensures part { IfErr result (AppendsPart (S.state sink.old) (S.state sink.new) (file_bytes_text path.now limit)) }
{
    let pieces = [
        Piece::Text(b"taco: "),
        Piece::Text(path.as_bytes()),
        Piece::Text(b": more than "),
        Piece::Number(limit),
        Piece::Text(b" bytes\n"),
    ];
    put_pieces(sink, &pieces)
}

/// Appends the line that says this of a tensor.
fn put_of_tensor<'x, S: Sink>(
    sink: &mut S,
    statement: &'x Statement,
    tensor: usize,
    text: &'x [u8],
) -> Result<(), Refusal>
    ensures whole { OnOk result (Appends (S.state sink.old) (S.state sink.new)
        (of_name (name_at statement.now.tensors tensor) (text.now ∷ []))) }
    ensures part { IfErr result (AppendsPart (S.state sink.old) (S.state sink.new)
        (of_name (name_at statement.now.tensors tensor) (text.now ∷ []))) }
{
    let name = name_at(statement.tensors.as_slice(), tensor);
    put_pieces(
        sink,
        &[Piece::Text(b"taco: "), Piece::Text(name), Piece::Text(text)],
    )
}

/// Appends the line of a name that stands where it may not.
fn put_name_line<S: Sink>(
    sink: &mut S,
    statement: &Statement,
    fault: NameFault,
) -> Result<(), Refusal>
    ensures whole { OnOk result (Appends (S.state sink.old) (S.state sink.new) (name_line statement.now fault)) }
    ensures part { IfErr result (AppendsPart (S.state sink.old) (S.state sink.new) (name_line statement.now fault)) }
{
    match fault {
        NameFault::ResultRead { tensor } => put_of_tensor(
            sink,
            statement,
            tensor,
            b": the result is read\n",
        ),
        NameFault::Arity { tensor } => put_of_tensor(
            sink,
            statement,
            tensor,
            b": accesses of different order\n",
        ),
        NameFault::RepeatedVariable { tensor, var } => {
            let pieces = [
                Piece::Text(b"taco: "),
                Piece::Text(name_at(statement.tensors.as_slice(), tensor)),
                Piece::Text(b": variable "),
                Piece::Text(name_at(statement.vars.as_slice(), var)),
                Piece::Text(b" stands twice\n"),
            ];
            put_pieces(sink, &pieces)
        }
        NameFault::BadSum { var } => {
            let pieces = [
                Piece::Text(b"taco: variable "),
                Piece::Text(name_at(statement.vars.as_slice(), var)),
                Piece::Text(b": bound and free\n"),
            ];
            put_pieces(sink, &pieces)
        }
    }
}

/// Appends the line of words that bind nothing.
fn put_binding_line<S: Sink>(
    sink: &mut S,
    statement: &Statement,
    fault: &BindingFault,
) -> Result<(), Refusal>
    ensures whole { OnOk result (Appends (S.state sink.old) (S.state sink.new) (binding_line statement.now fault.now)) }
    ensures part { IfErr result (AppendsPart (S.state sink.old) (S.state sink.new) (binding_line statement.now fault.now)) }
{
    match fault {
        BindingFault::Word { word, fault } => put_word_line(sink, *word, *fault),
        BindingFault::NoFile { tensor } => put_of_tensor(sink, statement, *tensor, b": no file\n"),
        BindingFault::BadFormat { tensor, fault } => put_of_tensor(
            sink,
            statement,
            *tensor,
            text_of_format(*fault),
        ),
        BindingFault::Memory(_) => put_all(sink, MEMORY),
    }
}

/// Appends the line of a variable without a range.
fn put_no_range<S: Sink>(sink: &mut S, var: &[u8]) -> Result<(), Refusal>
    ensures whole { OnOk result (Appends (S.state sink.old) (S.state sink.new) (no_range_text var.now)) }
    ensures part { IfErr result (AppendsPart (S.state sink.old) (S.state sink.new) (no_range_text var.now)) }
{
    put_pieces(
        sink,
        &[
            Piece::Text(b"taco: variable "),
            Piece::Text(var),
            Piece::Text(b": no range\n"),
        ],
    )
}

/// Appends the line of a variable with two ranges.
fn put_conflict<S: Sink>(sink: &mut S, var: &[u8], first: u64, other: u64) -> Result<(), Refusal>
    ensures whole { OnOk result (Appends (S.state sink.old) (S.state sink.new) (conflict_text var.now first other)) }
    ensures part { IfErr result (AppendsPart (S.state sink.old) (S.state sink.new) (conflict_text var.now first other)) }
{
    let pieces = [
        Piece::Text(b"taco: variable "),
        Piece::Text(var),
        Piece::Text(b": ranges "),
        Piece::Number(first),
        Piece::Text(b" and "),
        Piece::Number(other),
        Piece::Text(b"\n"),
    ];
    put_pieces(sink, &pieces)
}

/// Appends the line of a coordinate above a range.
fn put_above<S: Sink>(
    sink: &mut S,
    tensor: &[u8],
    coordinate: u64,
    range: u64,
) -> Result<(), Refusal>
    ensures whole { OnOk result (Appends (S.state sink.old) (S.state sink.new) (above_text tensor.now coordinate range)) }
    ensures part { IfErr result (AppendsPart (S.state sink.old) (S.state sink.new) (above_text tensor.now coordinate range)) }
{
    let pieces = [
        Piece::Text(b"taco: "),
        Piece::Text(tensor),
        Piece::Text(b": coordinate "),
        Piece::Number(coordinate),
        Piece::Text(b" above range "),
        Piece::Number(range),
        Piece::Text(b"\n"),
    ];
    put_pieces(sink, &pieces)
}

/// Appends the line of a variable without its range.
fn put_range_line<S: Sink>(
    sink: &mut S,
    statement: &Statement,
    fault: &RangeFault,
) -> Result<(), Refusal>
    ensures whole { OnOk result (Appends (S.state sink.old) (S.state sink.new) (range_line statement.now fault.now)) }
    ensures part { IfErr result (AppendsPart (S.state sink.old) (S.state sink.new) (range_line statement.now fault.now)) }
{
    let vars = statement.vars.as_slice();
    match fault {
        RangeFault::NoRange { var } => put_no_range(sink, name_at(vars, *var)),
        RangeFault::RangeConflict { var, first, other } => put_conflict(
            sink,
            name_at(vars, *var),
            *first,
            *other,
        ),
        RangeFault::OutOfRange {
            tensor,
            coordinate,
            range,
        } => put_above(
            sink,
            name_at(statement.tensors.as_slice(), *tensor),
            *coordinate,
            *range,
        ),
        RangeFault::Memory(_) => put_all(sink, MEMORY),
    }
}

/// Appends the line of a level with too many positions.
fn put_size<S: Sink>(sink: &mut S, tensor: &[u8], level: usize, count: u128) -> Result<(), Refusal>
    ensures whole { OnOk result (Appends (S.state sink.old) (S.state sink.new) (size_text tensor.now level count)) }
    ensures part { IfErr result (AppendsPart (S.state sink.old) (S.state sink.new) (size_text tensor.now level count)) }
{
    let pieces = [
        Piece::Text(b"taco: size limit: "),
        Piece::Text(tensor),
        Piece::Text(b" level "),
        Piece::Number(level as u64),
        Piece::Text(b" needs "),
        Piece::Wide(count),
        Piece::Text(b" positions\n"),
    ];
    put_pieces(sink, &pieces)
}

/// Appends the line of a workspace with too many pairs.
fn put_workspace<S: Sink>(sink: &mut S, count: u128) -> Result<(), Refusal>
    ensures whole { OnOk result (Appends (S.state sink.old) (S.state sink.new) (workspace_text count)) }
    ensures part { IfErr result (AppendsPart (S.state sink.old) (S.state sink.new) (workspace_text count)) }
{
    let pieces = [
        Piece::Text(b"taco: size limit: workspace needs "),
        Piece::Wide(count),
        Piece::Text(b" pairs\n"),
    ];
    put_pieces(sink, &pieces)
}

/// Appends a blank and a name for each of these variables, and then the end of the line.
fn put_names<S: Sink>(sink: &mut S, names: &[Name], vars: &[usize]) -> Result<(), Refusal>
    ensures whole { OnOk result (Appends (S.state sink.old) (S.state sink.new) (names_behind names.now vars.now)) }
    ensures part { IfErr result (AppendsPart (S.state sink.old) (S.state sink.new) (names_behind names.now vars.now)) }
{
    let Some((var, others)) = vars.split_first() else {
        return put_all(sink, b"\n");
    };
    match put_pieces(
        sink,
        &[Piece::Text(b" "), Piece::Text(name_at(names, *var))],
    ) {
        Ok(()) => put_names(sink, names, others),
        Err(refusal) => Err(refusal),
    }
}

/// Appends the line of variables that wait for one another.
fn put_cycle<S: Sink>(sink: &mut S, statement: &Statement, cycle: &[usize]) -> Result<(), Refusal>
    ensures whole { OnOk result (Appends (S.state sink.old) (S.state sink.new) (cycle_text statement.now cycle.now)) }
    ensures part { IfErr result (AppendsPart (S.state sink.old) (S.state sink.new) (cycle_text statement.now cycle.now)) }
{
    match put_all(sink, b"taco: cycle") {
        Ok(()) => put_names(sink, statement.vars.as_slice(), cycle),
        Err(refusal) => Err(refusal),
    }
}

/// Appends the line of a fault that is told by names.
fn put_named_line<S: Sink>(
    sink: &mut S,
    statement: &Statement,
    fault: &NamedFault,
) -> Result<(), Refusal>
    ensures whole { OnOk result (Appends (S.state sink.old) (S.state sink.new) (named_line statement.now fault.now)) }
    ensures part { IfErr result (AppendsPart (S.state sink.old) (S.state sink.new) (named_line statement.now fault.now)) }
{
    match fault {
        NamedFault::Name(fault) => put_name_line(sink, statement, *fault),
        NamedFault::Binding(fault) => put_binding_line(sink, statement, fault),
        NamedFault::Cycle(cycle) => put_cycle(sink, statement, cycle.as_slice()),
        NamedFault::Range(fault) => put_range_line(sink, statement, fault),
        NamedFault::SizeLimit(large) => put_size(
            sink,
            name_at(statement.tensors.as_slice(), large.tensor),
            large.level,
            large.count,
        ),
    }
}

/// Appends the line of a minus that the semiring of this name has no meaning for.
fn put_no_minus<S: Sink>(sink: &mut S, over: &str) -> Result<(), Refusal>
    ensures whole { OnOk result (Appends (S.state sink.old) (S.state sink.new) (no_minus_text over.now)) }
    ensures part { IfErr result (AppendsPart (S.state sink.old) (S.state sink.new) (no_minus_text over.now)) }
{
    let pieces = [
        Piece::Text(b"taco: minus has no meaning over "),
        Piece::Text(over.as_bytes()),
        Piece::Text(b"\n"),
    ];
    put_pieces(sink, &pieces)
}

/// Appends the line of a file with a bad line.
fn put_bad_line<S: Sink>(sink: &mut S, path: &str, line: u64, kind: LineKind) -> Result<(), Refusal>
    ensures whole { OnOk result (Appends (S.state sink.old) (S.state sink.new) (bad_line_text path.now line kind)) }
    ensures part { IfErr result (AppendsPart (S.state sink.old) (S.state sink.new) (bad_line_text path.now line kind)) }
{
    let pieces = [
        Piece::Text(b"taco: "),
        Piece::Text(path.as_bytes()),
        Piece::Text(b": line "),
        Piece::Number(line),
        Piece::Text(text_of_kind(kind)),
    ];
    put_pieces(sink, &pieces)
}

/// Appends the line that says this of a line of a kernel's file.
fn put_kernel_line<'x, S: Sink>(
    sink: &mut S,
    path: &'x str,
    line: u64,
    text: &'x [u8],
) -> Result<(), Refusal>
    ensures whole { OnOk result (Appends (S.state sink.old) (S.state sink.new) (kernel_line_text path.now line text.now)) }
    ensures part { IfErr result (AppendsPart (S.state sink.old) (S.state sink.new) (kernel_line_text path.now line text.now)) }
{
    let pieces = [
        Piece::Text(b"taco: "),
        Piece::Text(path.as_bytes()),
        Piece::Text(b": line "),
        Piece::Number(line),
        Piece::Text(text),
    ];
    put_pieces(sink, &pieces)
}

/// Appends the line of a run that can't go on at this statement.
fn put_trap<S: Sink>(sink: &mut S, statement: u64) -> Result<(), Refusal>
    ensures whole { OnOk result (Appends (S.state sink.old) (S.state sink.new) (trap_text statement)) }
    ensures part { IfErr result (AppendsPart (S.state sink.old) (S.state sink.new) (trap_text statement)) }
{
    let pieces = [
        Piece::Text(b"taco: trap at statement "),
        Piece::Number(statement),
        Piece::Text(b"\n"),
    ];
    put_pieces(sink, &pieces)
}

/// Appends the line of a run that used all the turns that it was given.
fn put_budget<S: Sink>(sink: &mut S, turns: u64) -> Result<(), Refusal>
    ensures whole { OnOk result (Appends (S.state sink.old) (S.state sink.new) (budget_text turns)) }
    ensures part { IfErr result (AppendsPart (S.state sink.old) (S.state sink.new) (budget_text turns)) }
{
    let pieces = [
        Piece::Text(b"taco: budget of "),
        Piece::Number(turns),
        Piece::Text(b" turns used\n"),
    ];
    put_pieces(sink, &pieces)
}

/// Appends the line of a kernel that isn't read, or whose run has no result.
fn put_kernel_fault<S: Sink>(sink: &mut S, fault: &KernelFault<'_>) -> Result<(), Refusal>
    ensures whole { OnOk result (Appends (S.state sink.old) (S.state sink.new) (kernel_line fault.now)) }
    ensures part { IfErr result (AppendsPart (S.state sink.old) (S.state sink.new) (kernel_line fault.now)) }
{
    match fault {
        KernelFault::KernelDepth { path, line } => put_kernel_line(
            sink,
            path,
            *line,
            b": KernelDepth\n",
        ),
        KernelFault::BadKernel { path, line } => put_kernel_line(
            sink,
            path,
            *line,
            b": BadKernel\n",
        ),
        KernelFault::Trap { statement } => put_trap(sink, *statement),
        KernelFault::Budget { turns } => put_budget(sink, *turns),
        KernelFault::BadStore => put_all(sink, b"taco: the kernel left no storage\n"),
    }
}

/// Appends the line of a result that can't be written: to the output, or into the file of this path.
fn put_write_fault<S: Sink>(sink: &mut S, path: Option<&str>) -> Result<(), Refusal>
    ensures whole { OnOk result (Appends (S.state sink.old) (S.state sink.new) (line_of (fault.WriteFault path.entry))) }
    ensures part { IfErr result (AppendsPart (S.state sink.old) (S.state sink.new) (line_of (fault.WriteFault path.entry))) }
{
    match path {
        None => put_all(sink, b"taco: standard output: write fault\n"),
        Some(path) => put_of_path(sink, path, b": write fault\n"),
    }
}

/// Appends the line of a fault. It takes no memory but what the sink takes. After a refusal of the sink a part of the line at its
/// front was appended.
pub fn put_line<S: Sink>(sink: &mut S, fault: &Fault<'_>) -> Result<(), Refusal>
    ensures whole { OnOk result (Appends (S.state sink.old) (S.state sink.new) (line_of fault.now)) }
    ensures part { IfErr result (AppendsPart (S.state sink.old) (S.state sink.new) (line_of fault.now)) }
{
    match fault {
        Fault::Usage => put_all(sink, USAGE),
        Fault::Notation(fault) => put_notation_line(sink, fault),
        Fault::Named { statement, fault } => put_named_line(sink, statement, fault),
        Fault::NoMinus(over) => put_no_minus(sink, over),
        Fault::WorkspaceLimit(count) => put_workspace(sink, *count),
        Fault::ReadFault(path) => put_of_path(sink, path, b": read fault\n"),
        Fault::FileBytes(path) => put_file_bytes(sink, path, greatest_bytes_of_file()),
        Fault::BadFile { path, line, kind } => put_bad_line(sink, path, *line, *kind),
        Fault::Kernel(fault) => put_kernel_fault(sink, fault),
        Fault::WriteFault(path) => put_write_fault(sink, *path),
        Fault::Memory => put_all(sink, MEMORY),
    }
}
