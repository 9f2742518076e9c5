// Expressions.
ghost use Rattle.std.specs.Prelude.{◌≡◌, IfOk};
ghost use Rattle.simplifier.specs.Folded.{SimpleExpr, is_zero, number_of};
ghost use Rattle.simplifier.specs.Same.{SameValue};

use crate::words::of_operands;
use kernel_code::{KExpr, Op, binary, least_operand, width_of_operand, word_at};
use std::alloc::{AllocError, Global};
use trees::Boxed;

/// The number that an expression is, if it is one.
pub(crate) fn number(e: &KExpr) -> Option<u64>
    ensures { result ≡ number_of e.now }
{
    match e {
        KExpr::Num(n) => Some(*n),
        _ => None,
    }
}

/// Whether an expression is the number 0.
pub(crate) fn is_zero(e: &KExpr) -> bool
    ensures { result ≡ is_zero e.now }
{
    match e {
        KExpr::Num(n) => *n == 0,
        _ => false,
    }
}

/// An operator of two expressions, or its answer where numbers among them settle it.
pub(crate) fn fold_binary(alloc: Global, op: Op, a: KExpr, b: KExpr) -> Result<KExpr, AllocError>
    ensures same { IfOk result (λ r. SameValue r (KExpr.Bin op a b)) }
    ensures folded { SimpleExpr a → SimpleExpr b → IfOk result (λ r. SimpleExpr r) }
{
    match of_operands(op, number(&a), number(&b)) {
        Some(n) => Ok(KExpr::Num(n)),
        None => binary(alloc, op, a, b),
    }
}

/// The least of two expressions, or a number where both are numbers.
fn fold_least(alloc: Global, a: KExpr, b: KExpr) -> Result<KExpr, AllocError>
    ensures same { IfOk result (λ r. SameValue r (KExpr.Min a b)) }
    ensures folded { SimpleExpr a → SimpleExpr b → IfOk result (λ r. SimpleExpr r) }
{
    match least_operand(number(&a), number(&b)) {
        Some(n) => Ok(KExpr::Num(n)),
        None => {
            let a = Boxed::new(alloc, a)?;
            let b = Boxed::new(alloc, b)?;
            Ok(KExpr::Min(a, b))
        }
    }
}

/// The width of an expression, or a number where it is one that has a width.
fn fold_width(alloc: Global, e: KExpr) -> Result<KExpr, AllocError>
    ensures same { IfOk result (λ r. SameValue r (KExpr.Width e)) }
    ensures folded { SimpleExpr e → IfOk result (λ r. SimpleExpr r) }
{
    match width_of_operand(number(&e)) {
        Some(n) => Ok(KExpr::Num(n)),
        None => {
            let e = Boxed::new(alloc, e)?;
            Ok(KExpr::Width(e))
        }
    }
}

/// An expression of the same value in every state, stuck in the same states, in which numbers are folded. An operand that
/// isn't evaluated may be dropped, one that is evaluated and isn't a number stands. Refused only for want of memory.
pub fn simplify_expr(alloc: Global, e: &KExpr) -> Result<KExpr, AllocError>
    ensures same { IfOk result (λ r. SameValue r e.now) }
    ensures folded { IfOk result (λ r. SimpleExpr r) }
{
    match e {
        KExpr::Num(n) => Ok(KExpr::Num(*n)),
        KExpr::Var(x) => Ok(KExpr::Var(*x)),
        KExpr::At(array, index) => {
            let index = simplify_expr(alloc, index.get())?;
            word_at(alloc, *array, index)
        }
        KExpr::Len(array) => Ok(KExpr::Len(*array)),
        KExpr::Bin(op, a, b) => {
            let a = simplify_expr(alloc, a.get())?;
            let b = simplify_expr(alloc, b.get())?;
            fold_binary(alloc, *op, a, b)
        }
        KExpr::Min(a, b) => {
            let a = simplify_expr(alloc, a.get())?;
            let b = simplify_expr(alloc, b.get())?;
            fold_least(alloc, a, b)
        }
        KExpr::Width(e) => {
            let e = simplify_expr(alloc, e.get())?;
            fold_width(alloc, e)
        }
    }
}
