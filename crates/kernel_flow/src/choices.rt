// What a test tells of what was left under it before, and what the bodies of a choice leave under its test.
ghost use Rattle.std.specs.Prelude.{◌≡◌, ◌∷◌, [], IsTrue, IfOk, OnOk};
ghost use Rattle.kernel_flow.specs.Facts.{Gives};
ghost use Rattle.kernel_flow.specs.Choices.{Joins, Sides, Tells, WhereSame, is_value};

use crate::exprs::is_fixed;
use crate::facts::{Fact, Shared, add_fact, common, is_among_first, place_among};
use crate::marks::mark_of;
use kernel_code::{KExpr, Op, binary, copy_expr};
use simplifier::{is_number, same_expr};
use std::alloc::{AllocError, Global};
use trees::Items;

/// Whether it stands among facts that an expression's value is a number.
fn is_told(facts: &[Shared], e: &KExpr, n: u64) -> bool
    ensures { IsTrue result → Gives facts.now (is_value e.now n ∷ []) }
{
    let mark = mark_of(e);
    for fact in facts {
        if fact.is_of(e, mark) && is_number(&fact.get().right, n) {
            return true;
        }
    }
    false
}

/// Adds that two expressions have one value, unless it may change as arrays are written.
fn add_same(
    alloc: Global,
    facts: &mut Items<Shared>,
    a: &KExpr,
    b: &KExpr,
) -> Result<(), AllocError>
    ensures { OnOk result (WhereSame a.now b.now facts.old facts.new) }
{
    if is_fixed(a) && is_fixed(b) {
        let left = copy_expr(alloc, a)?;
        let right = copy_expr(alloc, b)?;
        return add_fact(alloc, facts, left, right);
    }
    Ok(())
}

fn is_equal(op: Op) -> bool
    ensures { IsTrue result → op ≡ Op.Equal }
{
    match op {
        Op::Equal => true,
        _ => false,
    }
}

fn is_and(op: Op) -> bool
    ensures { IsTrue result → op ≡ Op.And }
{
    match op {
        Op::And => true,
        _ => false,
    }
}

/// Adds that the sides of an equality, which isn't 0, have one value.
fn add_sides(alloc: Global, facts: &mut Items<Shared>, t: &KExpr) -> Result<(), AllocError>
    ensures { OnOk result (Sides t.now facts.old facts.new) }
{
    match t {
        KExpr::Bin(op, a, b) if is_equal(*op) => add_same(alloc, facts, a.get(), b.get()),
        _ => Ok(()),
    }
}

/// Adds what a fact that names a test says where the test's value is this number: the value of a flag, and what is known under the test.
fn add_told(
    alloc: Global,
    facts: &mut Items<Shared>,
    fact: &Fact,
    test: &KExpr,
    n: u64,
) -> Result<(), AllocError>
    ensures { OnOk result (Tells fact.now test.now n facts.old facts.new) }
{
    if !same_expr(&fact.right, test) {
        return Ok(());
    }
    match &fact.left {
        KExpr::Var(x) => add_fact(alloc, facts, KExpr::Var(*x), KExpr::Num(n)),
        KExpr::Bin(op, _, t) if n == 1 && is_and(*op) => add_sides(alloc, facts, t.get()),
        _ => Ok(()),
    }
}

/// What facts say where it is known that a test's value is this number.
fn told(alloc: Global, facts: &[Shared], test: &KExpr, n: u64) -> Result<Items<Shared>, AllocError>
    requires { Gives facts.now (is_value test.now n ∷ []) }
    ensures { IfOk result (λ r. Gives facts.now r) }
{
    let mut out = Items::new(alloc);
    for fact in facts {
        add_told(alloc, &mut out, fact.get(), test, n)?;
    }
    Ok(out)
}

/// Facts, behind what they say of a test whose value is this number, if that is known.
pub(crate) fn with_told(
    alloc: Global,
    facts: Items<Shared>,
    test: &KExpr,
    n: u64,
) -> Result<Items<Shared>, AllocError>
    ensures { IfOk result (λ r. Gives facts r) }
{
    if !is_told(facts.as_slice(), test, n) {
        return Ok(facts);
    }
    let mut out = told(alloc, facts.as_slice(), test, n)?;
    out.append(facts)?;
    Ok(out)
}

/// Adds that a variable is the test of a choice, if it is 0 where that is.
fn add_flag(
    alloc: Global,
    facts: &mut Items<Shared>,
    e: &KExpr,
    test: &KExpr,
    elsewhere: &[Shared],
) -> Result<(), AllocError>
    ensures { OnOk result (Joins (is_value e.now 1) test.now elsewhere.now facts.old facts.new) }
{
    if is_told(elsewhere, e, 0) {
        let left = copy_expr(alloc, e)?;
        let right = copy_expr(alloc, test)?;
        return add_fact(alloc, facts, left, right);
    }
    Ok(())
}

/// Adds that something is so wherever a test isn't 0.
fn add_guarded(
    alloc: Global,
    facts: &mut Items<Shared>,
    e: &KExpr,
    test: &KExpr,
    elsewhere: &[Shared],
) -> Result<(), AllocError>
    ensures { OnOk result (Joins (is_value e.now 1) test.now elsewhere.now facts.old facts.new) }
{
    if is_fixed(e) {
        let guard = copy_expr(alloc, test)?;
        let guarded = copy_expr(alloc, e)?;
        let left = binary(alloc, Op::And, guard, guarded)?;
        let right = copy_expr(alloc, test)?;
        return add_fact(alloc, facts, left, right);
    }
    Ok(())
}

/// Adds what a fact that holds where a test is 1 tells behind the choice.
fn add_joined(
    alloc: Global,
    facts: &mut Items<Shared>,
    fact: &Fact,
    test: &KExpr,
    elsewhere: &[Shared],
) -> Result<(), AllocError>
    ensures { OnOk result (Joins fact.now test.now elsewhere.now facts.old facts.new) }
{
    if !is_number(&fact.right, 1) {
        return Ok(());
    }
    match &fact.left {
        KExpr::Var(_) => add_flag(alloc, facts, &fact.left, test, elsewhere),
        KExpr::Bin(Op::Equal, _, _) => add_guarded(alloc, facts, &fact.left, test, elsewhere),
        _ => Ok(()),
    }
}

/// Adds a fact, unless it stands among the first of these facts already: what the bodies leave together with the test may have been known
/// before the choice. Each list holds it once, or it would be there twice as often behind each choice of that test. Refused only for want
/// of memory.
fn add_unless_among(facts: &mut Items<Shared>, fact: Shared, first: usize) -> Result<(), AllocError>
    ensures { OnOk result (Gives (fact ∷ facts.old) facts.new) }
{
    if is_among_first(&fact, facts.as_slice(), first) {
        drop(fact);
        return Ok(());
    }
    facts.push(fact)
}

/// What is known behind a choice whose test is still 1 behind the one body and 0 behind the other: what is known behind both, and what
/// the bodies leave together with the test.
fn under_test(
    alloc: Global,
    test: &KExpr,
    there: Items<Shared>,
    elsewhere: &[Shared],
) -> Result<Items<Shared>, AllocError>
    ensures first { IfOk result (λ r. Gives (is_value test.now 1 ∷ there) r) }
    ensures second { IfOk result (λ r. Gives (is_value test.now 0 ∷ elsewhere.now) r) }
{
    let mut out = Items::new(alloc);
    let mut next = 0;
    let mut joined = 0;
    for fact in there.into_vec() {
        if let Some(at) = place_among(&fact, elsewhere, next) {
            add_unless_among(&mut out, fact, joined)?;
            next = at + 1;
        } else {
            add_joined(alloc, &mut out, fact.get(), test, elsewhere)?;
            joined = out.len();
            drop(fact);
        }
    }
    Ok(out)
}

/// What is known behind a choice of two bodies.
pub(crate) fn behind_choice(
    alloc: Global,
    test: &KExpr,
    there: Items<Shared>,
    elsewhere: &[Shared],
) -> Result<Items<Shared>, AllocError>
    ensures first { IfOk result (λ r. Gives there r) }
    ensures second { IfOk result (λ r. Gives elsewhere.now r) }
{
    if is_told(there.as_slice(), test, 1) && is_told(elsewhere, test, 0) {
        let known = under_test(alloc, test, there, elsewhere)?;
        return Ok(known);
    }
    common(alloc, there, elsewhere)
}
