// Statements.
ghost use Rattle.std.specs.Prelude.{◌≡◌, ◌++◌, codes, suc};
ghost use Rattle.std.specs.Fmt.{decimal};
ghost use Rattle.text_lines.specs.Puts.{Prints};
ghost use Rattle.kernel_print.specs.Text.{array_text, combining_text, depth_of, expr_text};
ghost use Rattle.kernel_print.specs.Text.{indentation, kind_text, statement_text, statements_text};

use crate::exprs::{put_one, put_two};
use crate::indents::{Indent, put_indentation};
use crate::names::{put_array, put_name, put_numbered};
use kernel_code::{Arr, KExpr, KStmt, LoopKind, ValueOp};
use outside::{Refusal, Sink};
use text_lines::put_all;

/// The word that tells what a loop is for.
fn kind_word(kind: LoopKind) -> &'static [u8]
    ensures { result.now ≡ kind_text kind }
{
    match kind {
        LoopKind::Merge => b"merge",
        LoopKind::Skip => b"skip",
        LoopKind::Gather => b"gather",
        LoopKind::Drain => b"drain",
        LoopKind::Probe => b"probe",
    }
}

/// What stands between a variable and the first of two values that give it its value.
fn combining(op: ValueOp) -> &'static [u8]
    ensures { result.now ≡ combining_text op }
{
    match op {
        ValueOp::Plus => b" = plus(",
        ValueOp::Times => b" = times(",
    }
}

/// Appends a statement that gives a variable a value.
fn put_set<S: Sink>(sink: &mut S, x: u64, e: &KExpr) -> Result<(), Refusal>
    ensures { Prints (S.state sink.old) (S.state sink.new)
        (codes "x" ++ (decimal x ++ (codes " = " ++ (expr_text e.now ++ codes ";\n")))) result }
{
    put_numbered(sink, b"x", x)?;
    put_one(sink, b" = ", e, b";\n")
}

/// Appends a statement that gives a variable the sum or the product of two values.
fn put_combine<S: Sink>(
    sink: &mut S,
    x: u64,
    op: ValueOp,
    e: &KExpr,
    f: &KExpr,
) -> Result<(), Refusal>
    ensures { Prints (S.state sink.old) (S.state sink.new)
        (codes "x" ++ (decimal x ++ (combining_text op ++ (expr_text e.now
        ++ (codes ", " ++ (expr_text f.now ++ codes ");\n")))))) result }
{
    put_numbered(sink, b"x", x)?;
    put_two(sink, combining(op), e, b", ", f, b");\n")
}

/// Appends a statement that writes a word of an array.
fn put_write<S: Sink>(
    sink: &mut S,
    array: Arr,
    index: &KExpr,
    between: &[u8],
    e: &KExpr,
) -> Result<(), Refusal>
    ensures { Prints (S.state sink.old) (S.state sink.new)
        (array_text array ++ (codes "[" ++ (expr_text index.now ++ (between.now ++ (expr_text e.now ++ codes ";\n"))))) result }
{
    put_array(sink, array)?;
    put_two(sink, b"[", index, between, e, b";\n")
}

/// Appends a call on an array and an expression.
fn put_call<S: Sink>(sink: &mut S, name: &[u8], array: Arr, e: &KExpr) -> Result<(), Refusal>
    ensures { Prints (S.state sink.old) (S.state sink.new)
        (name.now ++ (array_text array ++ (codes ", " ++ (expr_text e.now ++ codes ");\n")))) result }
{
    put_all(sink, name)?;
    put_array(sink, array)?;
    put_one(sink, b", ", e, b");\n")
}

/// Appends a statement that appends copies of a word.
fn put_extend<S: Sink>(sink: &mut S, array: Arr, count: &KExpr, e: &KExpr) -> Result<(), Refusal>
    ensures { Prints (S.state sink.old) (S.state sink.new)
        (codes "extend(" ++ (array_text array ++ (codes ", " ++ (expr_text count.now
        ++ (codes ", " ++ (expr_text e.now ++ codes ");\n")))))) result }
{
    put_all(sink, b"extend(")?;
    put_array(sink, array)?;
    put_two(sink, b", ", count, b", ", e, b");\n")
}

/// Appends what stands before a loop's body.
fn put_loop_head<S: Sink>(sink: &mut S, kind: LoopKind, e: &KExpr) -> Result<(), Refusal>
    ensures { Prints (S.state sink.old) (S.state sink.new)
        (codes "while " ++ (kind_text kind ++ (codes " " ++ (expr_text e.now ++ codes " {\n")))) result }
{
    put_all(sink, b"while ")?;
    put_all(sink, kind_word(kind))?;
    put_one(sink, b" ", e, b" {\n")
}

/// Appends a statement, but for the indentation of its first line.
#[cycle(statements)]
fn put_statement<S: Sink>(sink: &mut S, indent: &Indent<'_>, s: &KStmt) -> Result<(), Refusal>
    ensures { Prints (S.state sink.old) (S.state sink.new) (statement_text (depth_of indent.now) s.now) result }
{
    match s {
        KStmt::Set(x, e) => put_set(sink, *x, e),
        KStmt::Combine(x, op, e, f) => put_combine(sink, *x, *op, e, f),
        KStmt::Put(a, i, e) => put_write(sink, *a, i, b"] = ", e),
        KStmt::AddTo(a, i, e) => put_write(sink, *a, i, b"] += ", e),
        KStmt::Push(a, e) => put_call(sink, b"push(", *a, e),
        KStmt::Extend(a, count, e) => put_extend(sink, *a, count, e),
        KStmt::Cut(a, e) => put_call(sink, b"cut(", *a, e),
        KStmt::Sort(list) => put_name(sink, b"sort(g", *list, b");\n"),
        KStmt::SortSum(workspace) => put_name(sink, b"sort_sum(w", *workspace, b");\n"),
        KStmt::If(e, first, second) => {
            put_one(sink, b"if ", e, b" {\n")?;
            put_block(sink, indent, first.as_slice(), b"} else {\n")?;
            put_block(sink, indent, second.as_slice(), b"}\n")
        }
        KStmt::While(kind, e, body) => {
            put_loop_head(sink, *kind, e)?;
            put_block(sink, indent, body.as_slice(), b"}\n")
        }
    }
}

/// Appends the statements inside brackets and the line that closes these.
#[cycle(statements)]
fn put_block<S: Sink>(
    sink: &mut S,
    outer: &Indent<'_>,
    body: &[KStmt],
    closing: &[u8],
) -> Result<(), Refusal>
    ensures { Prints (S.state sink.old) (S.state sink.new)
        (statements_text (suc (depth_of outer.now)) body.now ++ (indentation (depth_of outer.now) ++ closing.now)) result }
{
    put_statements(sink, &Indent::Within(&*outer), body)?;
    put_indentation(sink, outer)?;
    put_all(sink, closing)
}

/// Appends statements, each on lines of its own.
#[cycle(statements)]
pub(crate) fn put_statements<S: Sink>(
    sink: &mut S,
    indent: &Indent<'_>,
    statements: &[KStmt],
) -> Result<(), Refusal>
    ensures { Prints (S.state sink.old) (S.state sink.new)
        (statements_text (depth_of indent.now) statements.now) result }
{
    for s in statements {
        put_indentation(sink, indent)?;
        put_statement(sink, indent, s)?;
    }
    Ok(())
}
