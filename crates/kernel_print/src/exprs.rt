// Expressions.
ghost use Rattle.std.specs.Prelude.{◌≡◌, ◌++◌, codes};
ghost use Rattle.text_lines.specs.Puts.{Prints};
ghost use Rattle.kernel_print.specs.Text.{array_text, expr_text, operator_text};

use crate::names::{put_array, put_numbered};
use kernel_code::{Arr, KExpr, Op};
use outside::{Refusal, Sink};
use text_lines::{put_all, put_u64};

/// An operator with the blanks around it.
fn operator(op: Op) -> &'static [u8]
    ensures { result.now ≡ operator_text op }
{
    match op {
        Op::Add => b" + ",
        Op::Sub => b" - ",
        Op::Mul => b" * ",
        Op::BitAnd => b" & ",
        Op::Less => b" < ",
        Op::Equal => b" == ",
        Op::NotEqual => b" != ",
        Op::And => b" && ",
        Op::Or => b" || ",
    }
}

/// Appends the length of an array.
fn put_len<S: Sink>(sink: &mut S, array: Arr) -> Result<(), Refusal>
    ensures { Prints (S.state sink.old) (S.state sink.new) (codes "len(" ++ (array_text array ++ codes ")")) result }
{
    put_all(sink, b"len(")?;
    put_array(sink, array)?;
    put_all(sink, b")")
}

/// Appends an expression.
#[cycle(exprs)]
pub(crate) fn put_expr<S: Sink>(sink: &mut S, e: &KExpr) -> Result<(), Refusal>
    ensures { Prints (S.state sink.old) (S.state sink.new) (expr_text e.now) result }
{
    match e {
        KExpr::Num(n) => put_u64(sink, *n),
        KExpr::Var(x) => put_numbered(sink, b"x", *x),
        KExpr::At(a, i) => put_word(sink, *a, i.get()),
        KExpr::Len(a) => put_len(sink, *a),
        KExpr::Bin(op, a, b) => {
            put_one(sink, b"(", a.get(), operator(*op))?;
            put_one(sink, b"", b.get(), b")")
        }
        KExpr::Min(a, b) => {
            put_one(sink, b"min(", a.get(), b", ")?;
            put_one(sink, b"", b.get(), b")")
        }
        KExpr::Width(e) => put_one(sink, b"width(", e.get(), b")"),
    }
}

/// Appends an expression between two texts.
#[cycle(exprs)]
pub(crate) fn put_one<S: Sink>(
    sink: &mut S,
    before: &[u8],
    e: &KExpr,
    after: &[u8],
) -> Result<(), Refusal>
    ensures { Prints (S.state sink.old) (S.state sink.new) (before.now ++ (expr_text e.now ++ after.now)) result }
{
    put_all(sink, before)?;
    put_expr(sink, e)?;
    put_all(sink, after)
}

/// Appends the word of an array at an index.
#[cycle(exprs)]
fn put_word<S: Sink>(sink: &mut S, array: Arr, index: &KExpr) -> Result<(), Refusal>
    ensures { Prints (S.state sink.old) (S.state sink.new)
        (array_text array ++ (codes "[" ++ (expr_text index.now ++ codes "]"))) result }
{
    put_array(sink, array)?;
    put_one(sink, b"[", index, b"]")
}

/// Appends two expressions, with texts before, between and after them.
pub(crate) fn put_two<S: Sink>(
    sink: &mut S,
    before: &[u8],
    e: &KExpr,
    between: &[u8],
    f: &KExpr,
    after: &[u8],
) -> Result<(), Refusal>
    ensures { Prints (S.state sink.old) (S.state sink.new)
        (before.now ++ (expr_text e.now ++ (between.now ++ (expr_text f.now ++ after.now)))) result }
{
    put_all(sink, before)?;
    put_expr(sink, e)?;
    put_one(sink, between, f, after)
}
