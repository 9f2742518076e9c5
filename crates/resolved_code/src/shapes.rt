//! Which expressions are read where they stand.
ghost use Rattle.std.specs.Prelude.{◌≡◌, IfOk, IfSome};
ghost use Rattle.resolved_code.specs.Erase.{erase_value};

use crate::syntax::Value;
use kernel_code::{Arr, KExpr, Op, copy_expr};
use std::alloc::{AllocError, Global};

/// The word of an array behind a variable.
fn word_after_shape(a: Arr, x: &KExpr, n: &KExpr) -> Option<Value>
    ensures { IfSome result (λ v. erase_value v ≡ KExpr.At a (KExpr.Bin Op.Add x.now n.now)) }
{
    match (x, n) {
        (KExpr::Var(x), KExpr::Num(n)) => Some(Value::WordAfter(a, *x, *n)),
        _ => None,
    }
}

/// The word of an array at a word of another.
fn word_of_word_shape(a: Arr, b: Arr, i: &KExpr) -> Option<Value>
    ensures { IfSome result (λ v. erase_value v ≡ KExpr.At a (KExpr.At b i.now)) }
{
    match i {
        KExpr::Var(x) => Some(Value::WordOfWord(a, b, *x)),
        _ => None,
    }
}

/// The word of an array at an index.
fn word_shape(a: Arr, i: &KExpr) -> Option<Value>
    ensures { IfSome result (λ v. erase_value v ≡ KExpr.At a i.now) }
{
    match i {
        KExpr::Var(x) => Some(Value::Word(a, *x)),
        KExpr::Bin(Op::Add, x, n) => word_after_shape(a, x.get(), n.get()),
        KExpr::At(b, i) => word_of_word_shape(a, *b, i.get()),
        _ => None,
    }
}

/// Whether a variable is less than the word of an array behind another.
fn less_word_after_shape(x: u64, a: Arr, y: &KExpr, n: &KExpr) -> Option<Value>
    ensures { IfSome result
        (λ v. erase_value v ≡ KExpr.Bin Op.Less (KExpr.Var x) (KExpr.At a (KExpr.Bin Op.Add y.now n.now))) }
{
    match (y, n) {
        (KExpr::Var(y), KExpr::Num(n)) => Some(Value::LessWordAfter(x, a, *y, *n)),
        _ => None,
    }
}

/// Whether a variable is less than the word of an array at an index.
fn less_word_shape(x: u64, a: Arr, i: &KExpr) -> Option<Value>
    ensures { IfSome result (λ v. erase_value v ≡ KExpr.Bin Op.Less (KExpr.Var x) (KExpr.At a i.now)) }
{
    match i {
        KExpr::Num(n) => Some(Value::LessWord(x, a, *n)),
        KExpr::Bin(Op::Add, y, n) => less_word_after_shape(x, a, y.get(), n.get()),
        _ => None,
    }
}

/// The word of an array at a variable, multiplied by one at a word.
fn product_of_word_shape(a: Arr, x: u64, b: Arr, c: Arr, i: &KExpr) -> Option<Value>
    ensures { IfSome result (λ v. erase_value v
        ≡ KExpr.Bin Op.Mul (KExpr.At a (KExpr.Var x)) (KExpr.At b (KExpr.At c i.now))) }
{
    match i {
        KExpr::Var(y) => Some(Value::ProductOfWord(a, x, b, c, *y)),
        _ => None,
    }
}

/// The words of two arrays, multiplied.
fn product_shape(a: Arr, i: &KExpr, b: Arr, j: &KExpr) -> Option<Value>
    ensures { IfSome result (λ v. erase_value v ≡ KExpr.Bin Op.Mul (KExpr.At a i.now) (KExpr.At b j.now)) }
{
    match (i, j) {
        (KExpr::Var(x), KExpr::Var(y)) => Some(Value::Product(a, *x, b, *y)),
        (KExpr::Var(x), KExpr::At(c, j)) => product_of_word_shape(a, *x, b, *c, j.get()),
        _ => None,
    }
}

/// The least of two variables.
fn least_shape(a: &KExpr, b: &KExpr) -> Option<Value>
    ensures { IfSome result (λ v. erase_value v ≡ KExpr.Min a.now b.now) }
{
    match (a, b) {
        (KExpr::Var(x), KExpr::Var(y)) => Some(Value::Least(*x, *y)),
        _ => None,
    }
}

/// An operator of a variable and a number.
fn number_shape(op: Op, x: u64, n: u64) -> Option<Value>
    ensures { IfSome result (λ v. erase_value v ≡ KExpr.Bin op (KExpr.Var x) (KExpr.Num n)) }
{
    match op {
        Op::Add => Some(Value::AddNumber(x, n)),
        Op::Less => Some(Value::LessNumber(x, n)),
        _ => None,
    }
}

/// An operator of two variables.
fn pair_shape(op: Op, x: u64, y: u64) -> Option<Value>
    ensures { IfSome result (λ v. erase_value v ≡ KExpr.Bin op (KExpr.Var x) (KExpr.Var y)) }
{
    match op {
        Op::Add => Some(Value::Add(x, y)),
        Op::Less => Some(Value::Less(x, y)),
        Op::Equal => Some(Value::Equal(x, y)),
        _ => None,
    }
}

/// An operator of two expressions.
fn operator_shape(op: Op, a: &KExpr, b: &KExpr) -> Option<Value>
    ensures { IfSome result (λ v. erase_value v ≡ KExpr.Bin op a.now b.now) }
{
    match (op, a, b) {
        (_, KExpr::Var(x), KExpr::Num(n)) => number_shape(op, *x, *n),
        (_, KExpr::Var(x), KExpr::Var(y)) => pair_shape(op, *x, *y),
        (Op::Less, KExpr::Var(x), KExpr::At(a, i)) => less_word_shape(*x, *a, i.get()),
        (Op::Mul, KExpr::At(a, i), KExpr::At(b, j)) => product_shape(*a, i.get(), *b, j.get()),
        _ => None,
    }
}

/// The form of an expression that has one.
fn shape_of(e: &KExpr) -> Option<Value>
    ensures { IfSome result (λ v. erase_value v ≡ e.now) }
{
    match e {
        KExpr::Num(n) => Some(Value::Number(*n)),
        KExpr::Var(x) => Some(Value::Variable(*x)),
        KExpr::At(a, i) => word_shape(*a, i.get()),
        KExpr::Bin(op, a, b) => operator_shape(*op, a.get(), b.get()),
        KExpr::Min(a, b) => least_shape(a.get(), b.get()),
        KExpr::Len(_) | KExpr::Width(_) => None,
    }
}

/// An expression resolved. Refused only for want of memory.
pub(crate) fn resolve_value(alloc: Global, e: &KExpr) -> Result<Value, AllocError>
    ensures { IfOk result (λ v. erase_value v ≡ e.now) }
{
    match shape_of(e) {
        Some(value) => Ok(value),
        None => Ok(Value::Other(copy_expr(alloc, e)?)),
    }
}
