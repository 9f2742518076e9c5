// Statements that stand on one line, with its end.
ghost use Rattle.std.specs.Prelude.{◌≡◌, ◌<◌, ◌≤◌, ◌++◌, ℕ, codes, length, IfOk};
ghost use Rattle.std.specs.Fmt.{decimal};
ghost use Rattle.kernel_code.specs.declared.syntax.Arr.{Arr as AnArray};
ghost use Rattle.kernel_code.specs.declared.syntax.KExpr.{KExpr as AnExpr};
ghost use Rattle.kernel_code.specs.declared.syntax.KStmt.{KStmt as AStatement};
ghost use Rattle.kernel_print.specs.ArrayNames.{HasWords, IsWord};
ghost use Rattle.kernel_print.specs.ExprTexts.{ExprHasWords};
ghost use Rattle.kernel_print.specs.Text.{array_text, combining_text, expr_text, statement_text};
ghost use Rattle.kernel_read.specs.Reading.{BeginsPlain, HaveWords, Reads};
ghost use Rattle.kernel_read.specs.Statements.{IsAssigned, IsCalled, IsSimple, IsStored};

use crate::arrays::array_at;
use crate::digits::{name_at, numbered_at};
use crate::exprs::{one_at, pair_at};
use crate::marks::behind;
use kernel_code::{Arr, KExpr, KStmt, ValueOp};
use std::alloc::{AllocError, Global};

/// What stands between a variable and the first of two values that give it its value.
fn combining(op: ValueOp) -> &'static [u8]
    ensures { result.now ≡ combining_text op }
{
    match op {
        ValueOp::Plus => b" = plus(",
        ValueOp::Times => b" = times(",
    }
}

/// The variable and the expression that give a statement, and the place behind it.
fn set_at(
    alloc: Global,
    line: &[u8],
    at: usize,
) -> Result<Option<((u64, KExpr), usize)>, AllocError>
    requires { at ≤ length line.now }
    ensures { IfOk result (Reads (ℕ × AnExpr)
        (λ s. codes "x" ++ (decimal s.0 ++ (codes " = " ++ (expr_text s.1 ++ codes ";\n"))))
        (λ s. IsWord s.0 × ExprHasWords s.1) line.now at) }
{
    let Some((variable, at)) = name_at(line, at, b"x") else {
        return Ok(None);
    };
    match one_at(alloc, line, at, b" = ", b";\n")? {
        Some((e, at)) => Ok(Some(((variable, e), at))),
        None => Ok(None),
    }
}

/// The variable and the two values that give a statement, and the place behind it.
fn combined_at(
    alloc: Global,
    line: &[u8],
    at: usize,
    op: ValueOp,
) -> Result<Option<((u64, (KExpr, KExpr)), usize)>, AllocError>
    requires { at ≤ length line.now }
    ensures { IfOk result (Reads (ℕ × (AnExpr × AnExpr))
        (λ s. codes "x" ++ (decimal s.0 ++ (combining_text op ++ (expr_text s.1.0 ++ (codes ", " ++ (expr_text s.1.1 ++ codes ");\n"))))))
        (λ s. IsWord s.0 × HaveWords s.1) line.now at) }
{
    let Some((variable, at)) = name_at(line, at, b"x") else {
        return Ok(None);
    };
    match pair_at(alloc, line, at, combining(op), b", ", b");\n")? {
        Some((values, at)) => Ok(Some(((variable, values), at))),
        None => Ok(None),
    }
}

/// The statement that gives a variable its value, and the place behind it. That of two values is read where `combines`.
fn assigned_at(
    alloc: Global,
    line: &[u8],
    at: usize,
    combines: bool,
) -> Result<Option<(KStmt, usize)>, AllocError>
    requires { at ≤ length line.now }
    ensures { IfOk result (Reads AStatement (statement_text 0) (IsAssigned combines) line.now at) }
{
    if let Some(((x, e), next)) = set_at(alloc, line, at)? {
        return Ok(Some((KStmt::Set(x, e), next)));
    }
    if !combines {
        return Ok(None);
    }
    if let Some(((x, (e, f)), next)) = combined_at(alloc, line, at, ValueOp::Plus)? {
        return Ok(Some((KStmt::Combine(x, ValueOp::Plus, e, f), next)));
    }
    match combined_at(alloc, line, at, ValueOp::Times)? {
        Some(((x, (e, f)), next)) => Ok(Some((KStmt::Combine(x, ValueOp::Times, e, f), next))),
        None => Ok(None),
    }
}

/// The array and the two expressions with these bytes before, between and behind them, and the place behind that.
fn array_and_two_at(
    alloc: Global,
    line: &[u8],
    at: usize,
    before: &[u8],
    between: &[u8],
    after: &[u8],
) -> Result<Option<((Arr, (KExpr, KExpr)), usize)>, AllocError>
    requires within { at ≤ length line.now }
    requires first { BeginsPlain before.now }
    requires parted { BeginsPlain between.now }
    requires plain { BeginsPlain after.now }
    ensures { IfOk result (Reads (AnArray × (AnExpr × AnExpr))
        (λ s. array_text s.0 ++ (before.now ++ (expr_text s.1.0 ++ (between.now ++ (expr_text s.1.1 ++ after.now)))))
        (λ s. HasWords s.0 × HaveWords s.1) line.now at) }
{
    let Some((array, at)) = array_at(line, at) else {
        return Ok(None);
    };
    match pair_at(alloc, line, at, before, between, after)? {
        Some((pair, at)) => Ok(Some(((array, pair), at))),
        None => Ok(None),
    }
}

/// The statement that stores a word at an index or adds it there, and the place behind it.
fn stored_at(alloc: Global, line: &[u8], at: usize) -> Result<Option<(KStmt, usize)>, AllocError>
    requires { at ≤ length line.now }
    ensures { IfOk result (Reads AStatement (statement_text 0) IsStored line.now at) }
{
    if let Some(((array, (i, e)), next)) = array_and_two_at(
        alloc, line, at, b"[", b"] = ", b";\n",
    )? {
        return Ok(Some((KStmt::Put(array, i, e), next)));
    }
    match array_and_two_at(alloc, line, at, b"[", b"] += ", b";\n")? {
        Some(((array, (i, e)), next)) => Ok(Some((KStmt::AddTo(array, i, e), next))),
        None => Ok(None),
    }
}

/// The array and the expression that are passed to a call, and the place behind it.
fn arguments_at(
    alloc: Global,
    line: &[u8],
    at: usize,
) -> Result<Option<((Arr, KExpr), usize)>, AllocError>
    requires { at ≤ length line.now }
    ensures { IfOk result (Reads (AnArray × AnExpr)
        (λ s. array_text s.0 ++ (codes ", " ++ (expr_text s.1 ++ codes ");\n")))
        (λ s. HasWords s.0 × ExprHasWords s.1) line.now at) }
{
    let Some((array, at)) = array_at(line, at) else {
        return Ok(None);
    };
    match one_at(alloc, line, at, b", ", b");\n")? {
        Some((e, at)) => Ok(Some(((array, e), at))),
        None => Ok(None),
    }
}

/// The array and the expression of a call that begins so, and the place behind it.
fn call_at(
    alloc: Global,
    line: &[u8],
    at: usize,
    before: &[u8],
) -> Result<Option<((Arr, KExpr), usize)>, AllocError>
    requires { at ≤ length line.now }
    ensures { IfOk result (Reads (AnArray × AnExpr)
        (λ s. before.now ++ (array_text s.0 ++ (codes ", " ++ (expr_text s.1 ++ codes ");\n"))))
        (λ s. HasWords s.0 × ExprHasWords s.1) line.now at) }
{
    match behind(line, at, before) {
        Some(at) => arguments_at(alloc, line, at),
        None => Ok(None),
    }
}

/// The array and the two expressions of `extend`, and the place behind it.
fn extend_at(
    alloc: Global,
    line: &[u8],
    at: usize,
) -> Result<Option<((Arr, (KExpr, KExpr)), usize)>, AllocError>
    requires { at ≤ length line.now }
    ensures { IfOk result (Reads (AnArray × (AnExpr × AnExpr))
        (λ s. codes "extend(" ++ (array_text s.0 ++ (codes ", " ++ (expr_text s.1.0 ++ (codes ", " ++ (expr_text s.1.1 ++ codes ");\n"))))))
        (λ s. HasWords s.0 × HaveWords s.1) line.now at) }
{
    match behind(line, at, b"extend(") {
        Some(at) => array_and_two_at(alloc, line, at, b", ", b", ", b");\n"),
        None => Ok(None),
    }
}

/// The statement of a call, and the place behind it.
fn called_at(alloc: Global, line: &[u8], at: usize) -> Result<Option<(KStmt, usize)>, AllocError>
    requires { at ≤ length line.now }
    ensures { IfOk result (Reads AStatement (statement_text 0) IsCalled line.now at) }
{
    if let Some((list, next)) = numbered_at(line, at, b"sort(g", b");\n") {
        return Ok(Some((KStmt::Sort(list), next)));
    }
    if let Some((workspace, next)) = numbered_at(line, at, b"sort_sum(w", b");\n") {
        return Ok(Some((KStmt::SortSum(workspace), next)));
    }
    if let Some(((array, e), next)) = call_at(alloc, line, at, b"push(")? {
        return Ok(Some((KStmt::Push(array, e), next)));
    }
    if let Some(((array, e), next)) = call_at(alloc, line, at, b"cut(")? {
        return Ok(Some((KStmt::Cut(array, e), next)));
    }
    match extend_at(alloc, line, at)? {
        Some(((array, (count, e)), next)) => Ok(Some((KStmt::Extend(array, count, e), next))),
        None => Ok(None),
    }
}

/// The statement that stands on one line at a place of it, with the line's end, and the place behind it. A sum or a
/// product of values is read where `combines`. Refused only for want of memory.
pub fn statement_at(
    alloc: Global,
    line: &[u8],
    at: usize,
    combines: bool,
) -> Result<Option<(KStmt, usize)>, AllocError>
    requires { at ≤ length line.now }
    ensures { IfOk result (Reads AStatement (statement_text 0) (IsSimple combines) line.now at) }
{
    if let Some(found) = assigned_at(alloc, line, at, combines)? {
        return Ok(Some(found));
    }
    if let Some(found) = called_at(alloc, line, at)? {
        return Ok(Some(found));
    }
    stored_at(alloc, line, at)
}
