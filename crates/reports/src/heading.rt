// What stands before a kernel.
ghost use Rattle.std.specs.Prelude.{◌≡◌, OnOk, IfErr, length};
ghost use Rattle.std.specs.List.{flat_map};
ghost use Rattle.outside.specs.Sink.{Appends};
ghost use Rattle.text_lines.specs.Puts.{AppendsPart, Prints};
ghost use Rattle.reports.specs.Reports.{variable_text, order_line, title_text, tensor_line, tensor_lines, heading_text};

use bindings::name_at;
use format_spec::Format;
use index_notation::{Name, Statement};
use outside::{Refusal, Sink};
use text_lines::{Piece, put_all, put_pieces};

/// Appends a variable behind a blank.
fn put_variable<S: Sink>(sink: &mut S, names: &[Name], number: usize) -> Result<(), Refusal>
    ensures whole { OnOk result (Appends (S.state sink.old) (S.state sink.new) (variable_text names.now number)) }
    ensures part { IfErr result (AppendsPart (S.state sink.old) (S.state sink.new) (variable_text names.now number)) }
{
    let name = name_at(names, number);
    put_pieces(sink, &[Piece::Text(b" "), Piece::Text(name)])
}

/// Appends variables, each behind a blank.
fn put_variables<S: Sink>(sink: &mut S, names: &[Name], order: &[usize]) -> Result<(), Refusal>
    ensures { Prints (S.state sink.old) (S.state sink.new) (flat_map (variable_text names.now) order.now) result }
{
    for number in order {
        put_variable(sink, names, *number)?;
    }
    Ok(())
}

/// Appends the line of the order of loops.
fn put_order<S: Sink>(sink: &mut S, names: &[Name], order: &[usize]) -> Result<(), Refusal>
    ensures { Prints (S.state sink.old) (S.state sink.new) (order_line names.now order.now) result }
{
    put_all(sink, b"// order")?;
    put_variables(sink, names, order)?;
    put_all(sink, b"\n")
}

/// Appends a tensor's number and name.
fn put_title<S: Sink>(sink: &mut S, number: u64, name: &[u8]) -> Result<(), Refusal>
    ensures whole { OnOk result (Appends (S.state sink.old) (S.state sink.new) (title_text number name.now)) }
    ensures part { IfErr result (AppendsPart (S.state sink.old) (S.state sink.new) (title_text number name.now)) }
{
    put_pieces(
        sink,
        &[
            Piece::Text(b"// T"),
            Piece::Number(number),
            Piece::Text(b" = "),
            Piece::Text(name),
            Piece::Text(b":"),
        ],
    )
}

/// Appends the line of a tensor.
fn put_tensor<S: Sink>(
    sink: &mut S,
    number: u64,
    name: &[u8],
    format: &Format,
) -> Result<(), Refusal>
    ensures { Prints (S.state sink.old) (S.state sink.new) (tensor_line number name.now format.now) result }
{
    put_title(sink, number, name)?;
    format.put_format(sink)?;
    put_all(sink, b"\n")
}

/// Appends the lines of all tensors.
fn put_tensors<S: Sink>(sink: &mut S, names: &[Name], formats: &[Format]) -> Result<(), Refusal>
    requires { length formats.now ≡ length names.now }
    ensures { Prints (S.state sink.old) (S.state sink.new) (tensor_lines 0 names.now formats.now) result }
{
    for (number, name) in names.iter().enumerate() {
        put_tensor(sink, number as u64, name.bytes.as_slice(), &formats[number])?;
    }
    Ok(())
}

/// Appends what stands before the kernel of a statement: a line of its variables in the order of their loops, and one for each tensor
/// with its number, name and format. After a refusal a part of it at its front was appended. It takes no memory but what the sink
/// takes.
pub(crate) fn put_heading<S: Sink>(
    sink: &mut S,
    statement: &Statement,
    order: &[usize],
    formats: &[Format],
) -> Result<(), Refusal>
    requires { length formats.now ≡ length statement.now.tensors }
    ensures whole { OnOk result (Appends (S.state sink.old) (S.state sink.new) (heading_text statement.now order.now formats.now)) }
    ensures part { IfErr result (AppendsPart (S.state sink.old) (S.state sink.new) (heading_text statement.now order.now formats.now)) }
{
    put_order(sink, statement.vars.as_slice(), order)?;
    put_tensors(sink, statement.tensors.as_slice(), formats)
}
