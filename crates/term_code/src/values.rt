//! Code that leaves the value of an expression, if it is present.
ghost use Rattle.std.specs.Prelude.{◌≡◌, ℕ, ◌<◌, ◌≤◌, ◌+◌, ◌^◌, Bool, [], ◌∷◌, ◌++◌, true, length, IfOk};
ghost use Rattle.expr_terms.specs.Minus.{HasMeaning};
ghost use Rattle.index_notation.specs.Operators.{is_minus};
ghost use Rattle.loop_code.specs.Loops.{access_values};
ghost use Rattle.loop_code.specs.Places.{EachAccess};
ghost use Rattle.loop_code.specs.PresentValues.{present_value};
ghost use Rattle.term_code.specs.Places.{AreBelow};
ghost use Rattle.term_code.specs.Options.{LeavesOption};
ghost use Rattle.term_code.specs.OptionCodes.{number_code, access_code, either_code, both_code, each_code};
ghost use Rattle.term_code.specs.OptionCodes.{applied_code, value_at};

use crate::places::{AccessPlace, Places};
use index_notation::{Expr, Operator};
use kernel_code::{Arr, KExpr, KStmt, ValueOp, one_statement, word_at};
use numbers::Semiring;
use std::alloc::{AllocError, Global};
use trees::Items;

/// Leaves a number.
fn number(alloc: Global, n: u64, free: u64) -> Result<Items<KStmt>, AllocError>
    requires { free ≤ 2 ^ 62 }
    ensures { IfOk result (λ code. code ≡ number_code n free) }
{
    let mut code = one_statement(alloc, KStmt::Set(free, KExpr::Num(1)))?;
    code.push(KStmt::Set(free + 1, KExpr::Num(n)))?;
    Ok(code)
}

/// The value of an access that is present.
fn value_at(alloc: Global, place: AccessPlace) -> Result<KExpr, AllocError>
    requires { place.cursor < 2 ^ 63 }
    ensures { IfOk result (λ e. e ≡ value_at place.is_sum place.tensor place.cursor) }
{
    let first = KExpr::Var(place.cursor + 1);
    if place.is_sum {
        return Ok(first);
    }
    let word = word_at(alloc, Arr::Values(place.tensor), first)?;
    Ok(word)
}

/// Leaves the value of an access, where it is present.
fn access(alloc: Global, place: AccessPlace, free: u64) -> Result<Items<KStmt>, AllocError>
    requires cursor { place.cursor + 3 ≤ free }
    requires room { free ≤ 2 ^ 62 }
    ensures { IfOk result (λ code. code ≡ access_code place free) }
{
    let word = value_at(alloc, place)?;
    let mut there = one_statement(alloc, KStmt::Set(free, KExpr::Num(1)))?;
    there.push(KStmt::Set(free + 1, word))?;
    let none = one_statement(alloc, KStmt::Set(free, KExpr::Num(0)))?;
    let code = one_statement(alloc, KStmt::If(KExpr::Var(place.cursor), there, none))?;
    Ok(code)
}

/// Leaves the sum or the product of two values that are there in place of the first.
fn combined_pair(alloc: Global, op: ValueOp, free: u64) -> Result<Items<KStmt>, AllocError>
    requires { free ≤ 2 ^ 62 }
    ensures { IfOk result
        (λ code. code ≡ KStmt.Combine (free + 1) op (KExpr.Var (free + 1)) (KExpr.Var (free + 2 + 1)) ∷ []) }
{
    let first = KExpr::Var(free + 1);
    let second = KExpr::Var(free + 2 + 1);
    one_statement(alloc, KStmt::Combine(free + 1, op, first, second))
}

/// The sum of two values, of which an absent one counts nothing.
fn sum(
    alloc: Global,
    first: Items<KStmt>,
    second: Items<KStmt>,
    free: u64,
) -> Result<Items<KStmt>, AllocError>
    requires { free ≤ 2 ^ 62 }
    ensures { IfOk result (λ code. code ≡ (first ++ second) ++ either_code free) }
{
    let two = combined_pair(alloc, ValueOp::Plus, free)?;
    let mut other = one_statement(alloc, KStmt::Set(free, KExpr::Num(1)))?;
    other.push(KStmt::Set(free + 1, KExpr::Var(free + 2 + 1)))?;
    let there = one_statement(alloc, KStmt::If(KExpr::Var(free), two, other))?;
    let mut code = first;
    code.append(second)?;
    code.push(KStmt::If(KExpr::Var(free + 2), there, Items::new(alloc)))?;
    Ok(code)
}

/// The product of two values, absent where one is.
fn product(
    alloc: Global,
    first: Items<KStmt>,
    second: Items<KStmt>,
    free: u64,
) -> Result<Items<KStmt>, AllocError>
    requires { free ≤ 2 ^ 62 }
    ensures { IfOk result (λ code. code ≡ (first ++ second) ++ both_code free) }
{
    let two = combined_pair(alloc, ValueOp::Times, free)?;
    let none = one_statement(alloc, KStmt::Set(free, KExpr::Num(0)))?;
    let there = one_statement(alloc, KStmt::If(KExpr::Var(free + 2), two, none))?;
    let mut code = first;
    code.append(second)?;
    code.push(KStmt::If(KExpr::Var(free), there, Items::new(alloc)))?;
    Ok(code)
}

/// A value by minus one, where it is there.
pub(crate) fn negated<S: Semiring>(
    alloc: Global,
    value: Items<KStmt>,
    free: u64,
) -> Result<Items<KStmt>, AllocError>
    requires minus { S.has_minus ≡ true }
    requires room { free ≤ 2 ^ 63 }
    ensures { IfOk result (λ code. code ≡ value ++ each_code S.arithmetic.minus_one free) }
{
    let minus_one = S::minus_one().unwrap();
    let number = KExpr::Num(minus_one);
    let product = KStmt::Combine(free + 1, ValueOp::Times, number, KExpr::Var(free + 1));
    let there = one_statement(alloc, product)?;
    let mut code = value;
    code.push(KStmt::If(KExpr::Var(free), there, Items::new(alloc)))?;
    Ok(code)
}

/// An operator of two values, by the code of each.
fn applied<S: Semiring>(
    alloc: Global,
    operator: Operator,
    first: Items<KStmt>,
    second: Items<KStmt>,
    free: u64,
) -> Result<Items<KStmt>, AllocError>
    requires minus { is_minus operator ≡ true → S.has_minus ≡ true }
    requires room { free ≤ 2 ^ 62 }
    ensures { IfOk result (λ code. code ≡ applied_code S.arithmetic.minus_one operator first second free) }
{
    match operator {
        Operator::Add => {
            let code = sum(alloc, first, second, free)?;
            Ok(code)
        }
        Operator::Sub => {
            let less = negated::<S>(alloc, second, free + 2)?;
            let code = sum(alloc, first, less, free)?;
            Ok(code)
        }
        Operator::Mul => {
            let code = product(alloc, first, second, free)?;
            Ok(code)
        }
    }
}

/// Code that leaves, in two variables from `free` on, 1 and the value of an expression, or 0 where it is absent. Variables
/// from `free` on are its own. Refused only for want of memory.
pub fn emit_value<S: Semiring>(
    alloc: Global,
    places: &Places,
    expr: &Expr,
    free: u64,
) -> Result<Items<KStmt>, AllocError>
    requires placed { EachAccess (λ k. k < length places.now.accesses) expr.now }
    requires meant { HasMeaning S.has_minus expr.now }
    requires below { AreBelow free places.now }
    requires room { free ≤ 2 ^ 62 }
    ensures { IfOk result (λ code. (these : ℕ → Bool) → EachAccess (λ k. these k ≡ true) expr.now
        → LeavesOption S.arithmetic places.now these
        (λ stored env. present_value S.arithmetic (access_values stored env) expr.now) free code) }
{
    // No memory holds the code of so many operands.
    if free >= 1 << 61 {
        return Err(AllocError);
    }
    match expr {
        Expr::Num(n) => {
            let code = number(alloc, *n, free)?;
            Ok(code)
        }
        Expr::Access(k) => {
            let place = places.accesses.as_slice()[*k];
            let code = access(alloc, place, free)?;
            Ok(code)
        }
        Expr::Binary(operator, first, second) => {
            let x = emit_value::<S>(alloc, places, first.get(), free)?;
            let y = emit_value::<S>(alloc, places, second.get(), free + 2)?;
            let code = applied::<S>(alloc, *operator, x, y, free)?;
            Ok(code)
        }
        Expr::Neg(inner) => {
            let x = emit_value::<S>(alloc, places, inner.get(), free)?;
            let code = negated::<S>(alloc, x, free)?;
            Ok(code)
        }
    }
}
