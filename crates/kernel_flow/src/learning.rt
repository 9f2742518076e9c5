// What a statement or a test that was passed tells.
ghost use Rattle.std.specs.Prelude.{◌≡◌, IsTrue, IfOk, OnOk};
ghost use Rattle.kernel_flow.specs.Facts.{AfterSet, Becomes, BelowLast, BelowLastIf, Given, GivenIf, IsNumber, IsOneIf, IsWord, Learns};
ghost use Rattle.kernel_flow.specs.Facts.{LessThanWord, WhereNot, WhereZero, gives_word, is_test};

use crate::exprs::{is_fixed, is_range, is_steady, number};
use crate::facts::{Shared, add_fact, without};
use crate::marks::mark_of;
use crate::policy::copies_temporary;
use kernel_code::{KExpr, Op, binary, copy_expr};
use simplifier::same_expr;
use std::alloc::{AllocError, Global};
use trees::{Boxed, Items};

/// Adds that a variable has the value of an expression, unless that changes with it.
fn add_copy(alloc: Global, facts: &mut Items<Shared>, x: u64, e: &KExpr) -> Result<(), AllocError>
    ensures { OnOk result (AfterSet facts.old x e.now facts.new) }
{
    if is_steady(e, x) {
        let right = copy_expr(alloc, e)?;
        return add_fact(alloc, facts, KExpr::Var(x), right);
    }
    Ok(())
}

/// The least of an expression and the last word.
fn least_of(alloc: Global, e: &KExpr) -> Result<KExpr, AllocError>
    ensures { IfOk result (λ r. r ≡ KExpr.Min e.now (KExpr.Num 18446744073709551615)) }
{
    let first = copy_expr(alloc, e)?;
    let first = Boxed::new(alloc, first)?;
    let last = Boxed::new(alloc, KExpr::Num(u64::MAX))?;
    Ok(KExpr::Min(first, last))
}

/// Whether an operator answers a word whatever its operands are.
fn gives_word(op: Op) -> bool
    ensures { result ≡ gives_word op }
{
    match op {
        Op::Add => true,
        Op::Sub => true,
        Op::Mul => true,
        Op::BitAnd => false,
        Op::Less => true,
        Op::Equal => true,
        Op::NotEqual => true,
        Op::And => true,
        Op::Or => true,
    }
}

/// Whether it stands among facts that the least of an expression and the last word is the expression.
fn stands_as_word(facts: &[Shared], least: &KExpr, e: &KExpr) -> bool
    requires { least.now ≡ KExpr.Min e.now (KExpr.Num 18446744073709551615) }
    ensures { IsTrue result → IsWord facts.now e.now }
{
    let mark = mark_of(least);
    for fact in facts {
        if fact.is_of(least, mark) && same_expr(&fact.get().right, e) {
            return true;
        }
    }
    false
}

/// Whether a variable's value is known to be a word.
fn is_word_variable(alloc: Global, facts: &[Shared], e: &KExpr) -> Result<bool, AllocError>
    ensures { IfOk result (λ known. IsTrue known → IsWord facts.now e.now) }
{
    let least = least_of(alloc, e)?;
    Ok(stands_as_word(facts, &least, e))
}

/// Whether it is known that an expression's value is a word, if it isn't the least of two.
fn is_plain_word(alloc: Global, facts: &[Shared], e: &KExpr) -> Result<bool, AllocError>
    ensures { IfOk result (λ known. IsTrue known → IsWord facts.now e.now) }
{
    match e {
        KExpr::Num(n) => Ok(*n <= u64::MAX),
        KExpr::Var(_) => is_word_variable(alloc, facts, e),
        KExpr::At(array, _) => Ok(is_range(*array)),
        KExpr::Len(_) => Ok(false),
        KExpr::Bin(op, _, _) => Ok(gives_word(*op)),
        KExpr::Min(_, _) => Ok(false),
        KExpr::Width(_) => Ok(false),
    }
}

/// Whether it is known that an expression's value is a word.
pub(crate) fn is_word(alloc: Global, facts: &[Shared], e: &KExpr) -> Result<bool, AllocError>
    ensures { IfOk result (λ known. IsTrue known → IsWord facts.now e.now) }
{
    match e {
        KExpr::Min(a, _) => is_plain_word(alloc, facts, a.get()),
        _ => is_plain_word(alloc, facts, e),
    }
}

/// Adds that a variable's value is a word.
fn add_word(alloc: Global, facts: &mut Items<Shared>, x: u64) -> Result<(), AllocError>
    ensures { OnOk result (Given facts.old (KExpr.Var x) facts.new) }
{
    let e = KExpr::Var(x);
    let left = least_of(alloc, &e)?;
    add_fact(alloc, facts, left, e)
}

/// Adds that the variable whose value another was given has that one's value.
fn add_back(alloc: Global, facts: &mut Items<Shared>, x: u64, e: &KExpr) -> Result<(), AllocError>
    ensures { OnOk result (AfterSet facts.old x e.now facts.new) }
{
    if is_steady(e, x) {
        let left = copy_expr(alloc, e)?;
        return add_fact(alloc, facts, left, KExpr::Var(x));
    }
    Ok(())
}

/// Adds that a variable equals an expression: so it is known that both have a value.
fn add_equality(
    alloc: Global,
    facts: &mut Items<Shared>,
    x: u64,
    e: &KExpr,
) -> Result<(), AllocError>
    ensures { OnOk result (AfterSet facts.old x e.now facts.new) }
{
    if is_steady(e, x) && number(e).is_none() {
        let right = copy_expr(alloc, e)?;
        let left = binary(alloc, Op::Equal, KExpr::Var(x), right)?;
        return add_fact(alloc, facts, left, KExpr::Num(1));
    }
    Ok(())
}

/// Adds that a variable has the value of an expression, if it is to be copied.
fn add_copy_if(
    alloc: Global,
    facts: &mut Items<Shared>,
    x: u64,
    e: &KExpr,
    copies: bool,
) -> Result<(), AllocError>
    ensures { OnOk result (AfterSet facts.old x e.now facts.new) }
{
    if copies {
        return add_copy(alloc, facts, x, e);
    }
    Ok(())
}

/// Adds that a variable equals an expression, if that is to be noted.
fn add_equality_if(
    alloc: Global,
    facts: &mut Items<Shared>,
    x: u64,
    e: &KExpr,
    noted: bool,
) -> Result<(), AllocError>
    ensures { OnOk result (AfterSet facts.old x e.now facts.new) }
{
    if noted {
        return add_equality(alloc, facts, x, e);
    }
    Ok(())
}

/// Adds that a variable has the value of another that it was given.
fn add_names(
    alloc: Global,
    facts: &mut Items<Shared>,
    x: u64,
    e: &KExpr,
    back: bool,
) -> Result<(), AllocError>
    ensures { OnOk result (AfterSet facts.old x e.now facts.new) }
{
    if back {
        return add_back(alloc, facts, x, e);
    }
    add_copy(alloc, facts, x, e)
}

/// Whether an expression is a variable.
fn is_variable(e: &KExpr) -> bool {
    match e {
        KExpr::Var(_) => true,
        _ => false,
    }
}

fn add_names_if(
    alloc: Global,
    facts: &mut Items<Shared>,
    x: u64,
    e: &KExpr,
    names: bool,
    back: bool,
) -> Result<(), AllocError>
    ensures { OnOk result (AfterSet facts.old x e.now facts.new) }
{
    if names {
        return add_names(alloc, facts, x, e, back);
    }
    Ok(())
}

/// Adds that a variable's value is a word, if it is.
fn add_word_if(
    alloc: Global,
    facts: &mut Items<Shared>,
    x: u64,
    word: bool,
) -> Result<(), AllocError>
    ensures { OnOk result (GivenIf word facts.old (KExpr.Var x) facts.new) }
{
    if word {
        return add_word(alloc, facts, x);
    }
    Ok(())
}

/// What is known once a variable is given the value of an expression that was written so and is written otherwise now, if it is to be
/// copied, and if its equality is to be noted.
pub(crate) fn after_set(
    alloc: Global,
    facts: Items<Shared>,
    x: u64,
    e: &KExpr,
    now: &KExpr,
    copies: bool,
    noted: bool,
) -> Result<Items<Shared>, AllocError>
    requires { Becomes facts e.now now.now }
    ensures { IfOk result (λ after. Learns facts x e.now after) }
{
    let word = is_word(alloc, facts.as_slice(), now)?;
    let mut after = without(alloc, facts, x)?;
    let names = is_variable(e);
    let back = copies_temporary(x, e) || !is_steady(now, x);
    add_equality_if(alloc, &mut after, x, now, copies && noted)?;
    add_copy_if(alloc, &mut after, x, now, copies)?;
    add_names_if(alloc, &mut after, x, e, names, back)?;
    add_word_if(alloc, &mut after, x, word)?;
    Ok(after)
}

/// Adds that an expression's value is a number, unless it may change as arrays are written.
fn add_number(alloc: Global, facts: &mut Items<Shared>, e: &KExpr, n: u64) -> Result<(), AllocError>
    ensures { OnOk result (IsNumber facts.old e.now n facts.new) }
{
    if is_fixed(e) {
        let left = copy_expr(alloc, e)?;
        return add_fact(alloc, facts, left, KExpr::Num(n));
    }
    Ok(())
}

/// Adds that an expression's value isn't the last word, which it is below.
fn add_last_apart(alloc: Global, facts: &mut Items<Shared>, e: &KExpr) -> Result<(), AllocError>
    ensures { OnOk result (BelowLast facts.old e.now facts.new) }
{
    let again = copy_expr(alloc, e)?;
    let equal = binary(alloc, Op::Equal, again, KExpr::Num(u64::MAX))?;
    add_number(alloc, facts, &equal, 0)?;
    let again = copy_expr(alloc, e)?;
    let swapped = binary(alloc, Op::Equal, KExpr::Num(u64::MAX), again)?;
    add_number(alloc, facts, &swapped, 0)
}

/// Adds that the value of a variable is a word, which is below the last word.
fn add_word_of(alloc: Global, facts: &mut Items<Shared>, e: &KExpr) -> Result<(), AllocError>
    ensures { OnOk result (BelowLast facts.old e.now facts.new) }
{
    match e {
        KExpr::Var(x) => add_word(alloc, facts, *x),
        _ => Ok(()),
    }
}

/// Adds what is known of an expression whose value is below the last word.
fn add_below_last(alloc: Global, facts: &mut Items<Shared>, e: &KExpr) -> Result<(), AllocError>
    ensures { OnOk result (BelowLast facts.old e.now facts.new) }
{
    add_word_of(alloc, facts, e)?;
    add_last_apart(alloc, facts, e)
}

fn add_below_last_if(
    alloc: Global,
    facts: &mut Items<Shared>,
    e: &KExpr,
    below: bool,
) -> Result<(), AllocError>
    ensures { OnOk result (BelowLastIf below facts.old e.now facts.new) }
{
    if below {
        return add_below_last(alloc, facts, e);
    }
    Ok(())
}

/// Whether an operator says that its first operand is below a word.
fn is_below_word(alloc: Global, facts: &[Shared], op: Op, b: &KExpr) -> Result<bool, AllocError>
    ensures { IfOk result (λ below. IsTrue below → LessThanWord facts.now op b.now) }
{
    match op {
        Op::Less => is_word(alloc, facts, b),
        _ => Ok(false),
    }
}

/// Whether an operator answers 1 or 0.
fn is_test(op: Op) -> bool
    ensures { result ≡ is_test op }
{
    match op {
        Op::Add => false,
        Op::Sub => false,
        Op::Mul => false,
        Op::BitAnd => false,
        Op::Less => true,
        Op::Equal => true,
        Op::NotEqual => true,
        Op::And => true,
        Op::Or => true,
    }
}

fn add_one_if(
    alloc: Global,
    facts: &mut Items<Shared>,
    test: &KExpr,
    one: bool,
) -> Result<(), AllocError>
    ensures { OnOk result (IsOneIf one facts.old test.now facts.new) }
{
    if one {
        return add_number(alloc, facts, test, 1);
    }
    Ok(())
}

/// Adds what an operator tells whose value isn't 0.
fn where_operator(
    alloc: Global,
    facts: &mut Items<Shared>,
    test: &KExpr,
    op: Op,
    a: &KExpr,
    b: &KExpr,
) -> Result<(), AllocError>
    requires { test.now ≡ KExpr.Bin op a.now b.now }
    ensures { OnOk result (WhereNot facts.old test.now facts.new) }
{
    let below = is_below_word(alloc, facts.as_slice(), op, b)?;
    let one = is_test(op);
    add_below_last_if(alloc, facts, a, below)?;
    add_one_if(alloc, facts, test, one)
}

/// Adds what a test tells whose value is 0.
pub(crate) fn where_zero(
    alloc: Global,
    facts: &mut Items<Shared>,
    test: &KExpr,
) -> Result<(), AllocError>
    ensures { OnOk result (WhereZero facts.old test.now facts.new) }
{
    add_number(alloc, facts, test, 0)
}

/// Adds what a test tells whose value isn't 0.
pub(crate) fn where_not(
    alloc: Global,
    facts: &mut Items<Shared>,
    test: &KExpr,
) -> Result<(), AllocError>
    ensures { OnOk result (WhereNot facts.old test.now facts.new) }
{
    match test {
        KExpr::Bin(op, a, b) => where_operator(alloc, facts, test, *op, a.get(), b.get()),
        _ => Ok(()),
    }
}
