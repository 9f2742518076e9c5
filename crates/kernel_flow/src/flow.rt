// Statements written by what is known before them, and what is known behind them.
ghost use Rattle.std.specs.Prelude.{◌≡◌, [], ◌∷◌, ◌++◌, IfOk, OnOk};
ghost use Rattle.kernel_flow.specs.Passing.{Passes, PassesTurn};
ghost use Rattle.kernel_flow.specs.Facts.{Becomes, Gives, WhereNot, WhereZero};

use crate::apart::sets_only;
use crate::choices::{behind_choice, with_told};
use crate::exprs::number;
use crate::facts::{
    Shared, all_among, common, copy_facts, likely, those_apart, those_beside, without,
};
use crate::guesses::{Changes, changes_of};
use crate::learning::{after_set, where_not, where_zero};
use crate::policy::{Policy, may_copy};
use crate::rewriting::rewrite;
use kernel_code::{Arr, KExpr, KStmt, LoopKind, ValueOp, one_statement};
use simplifier::same_expr;
use std::alloc::{AllocError, Global};
use trees::Items;

/// Code, and what is known behind it.
#[derive(Drop)]
pub(crate) struct Passed {
    pub(crate) code: Items<KStmt>,
    pub(crate) facts: Items<Shared>,
}

/// A loop's test, its body, and what is known behind the body.
#[derive(Drop)]
struct Turned {
    test: KExpr,
    body: Items<KStmt>,
    facts: Items<Shared>,
}

fn pass_set(
    alloc: Global,
    x: u64,
    e: &KExpr,
    facts: Items<Shared>,
    policy: Policy<'_>,
) -> Result<Passed, AllocError>
    ensures { IfOk result (λ p. Passes facts (KStmt.Set x e.now ∷ []) p.code p.facts) }
{
    let now = rewrite(alloc, facts.as_slice(), e)?;
    let copies = may_copy(policy.reads, x, &now);
    let after = after_set(alloc, facts, x, e, &now, copies, policy.in_choice)?;
    let code = one_statement(alloc, KStmt::Set(x, now))?;
    Ok(Passed { code, facts: after })
}

fn pass_combine(
    alloc: Global,
    x: u64,
    op: ValueOp,
    e: &KExpr,
    f: &KExpr,
    facts: Items<Shared>,
) -> Result<Passed, AllocError>
    ensures { IfOk result (λ p. Passes facts (KStmt.Combine x op e.now f.now ∷ []) p.code p.facts) }
{
    let e = rewrite(alloc, facts.as_slice(), e)?;
    let f = rewrite(alloc, facts.as_slice(), f)?;
    let after = without(alloc, facts, x)?;
    let code = one_statement(alloc, KStmt::Combine(x, op, e, f))?;
    Ok(Passed { code, facts: after })
}

fn pass_put(
    alloc: Global,
    array: Arr,
    i: &KExpr,
    e: &KExpr,
    facts: Items<Shared>,
) -> Result<Passed, AllocError>
    ensures { IfOk result (λ p. Passes facts (KStmt.Put array i.now e.now ∷ []) p.code p.facts) }
{
    let i = rewrite(alloc, facts.as_slice(), i)?;
    let e = rewrite(alloc, facts.as_slice(), e)?;
    let code = one_statement(alloc, KStmt::Put(array, i, e))?;
    Ok(Passed { code, facts })
}

fn pass_sum(
    alloc: Global,
    array: Arr,
    i: &KExpr,
    e: &KExpr,
    facts: Items<Shared>,
) -> Result<Passed, AllocError>
    ensures { IfOk result (λ p. Passes facts (KStmt.AddTo array i.now e.now ∷ []) p.code p.facts) }
{
    let i = rewrite(alloc, facts.as_slice(), i)?;
    let e = rewrite(alloc, facts.as_slice(), e)?;
    let code = one_statement(alloc, KStmt::AddTo(array, i, e))?;
    Ok(Passed { code, facts })
}

fn pass_push(
    alloc: Global,
    array: Arr,
    e: &KExpr,
    facts: Items<Shared>,
) -> Result<Passed, AllocError>
    ensures { IfOk result (λ p. Passes facts (KStmt.Push array e.now ∷ []) p.code p.facts) }
{
    let e = rewrite(alloc, facts.as_slice(), e)?;
    let code = one_statement(alloc, KStmt::Push(array, e))?;
    Ok(Passed { code, facts })
}

fn pass_extend(
    alloc: Global,
    array: Arr,
    i: &KExpr,
    e: &KExpr,
    facts: Items<Shared>,
) -> Result<Passed, AllocError>
    ensures { IfOk result (λ p. Passes facts (KStmt.Extend array i.now e.now ∷ []) p.code p.facts) }
{
    let i = rewrite(alloc, facts.as_slice(), i)?;
    let e = rewrite(alloc, facts.as_slice(), e)?;
    let code = one_statement(alloc, KStmt::Extend(array, i, e))?;
    Ok(Passed { code, facts })
}

fn pass_cut(
    alloc: Global,
    array: Arr,
    e: &KExpr,
    facts: Items<Shared>,
) -> Result<Passed, AllocError>
    ensures { IfOk result (λ p. Passes facts (KStmt.Cut array e.now ∷ []) p.code p.facts) }
{
    let e = rewrite(alloc, facts.as_slice(), e)?;
    let code = one_statement(alloc, KStmt::Cut(array, e))?;
    Ok(Passed { code, facts })
}

fn pass_sort(alloc: Global, list: u64, facts: Items<Shared>) -> Result<Passed, AllocError>
    ensures { IfOk result (λ p. Passes facts (KStmt.Sort list ∷ []) p.code p.facts) }
{
    let code = one_statement(alloc, KStmt::Sort(list))?;
    Ok(Passed { code, facts })
}

fn pass_sort_sum(alloc: Global, workspace: u64, facts: Items<Shared>) -> Result<Passed, AllocError>
    ensures { IfOk result (λ p. Passes facts (KStmt.SortSum workspace ∷ []) p.code p.facts) }
{
    let code = one_statement(alloc, KStmt::SortSum(workspace))?;
    Ok(Passed { code, facts })
}

/// Adds what a test tells whose value isn't 0, if that is new.
fn where_not_if(
    alloc: Global,
    facts: &mut Items<Shared>,
    test: &KExpr,
    new: bool,
) -> Result<(), AllocError>
    ensures { OnOk result (WhereNot facts.old test.now facts.new) }
{
    if new {
        return where_not(alloc, facts, test);
    }
    Ok(())
}

/// Adds what a test tells whose value is 0, if that is new.
fn where_zero_if(
    alloc: Global,
    facts: &mut Items<Shared>,
    test: &KExpr,
    new: bool,
) -> Result<(), AllocError>
    ensures { OnOk result (WhereZero facts.old test.now facts.new) }
{
    if new {
        return where_zero(alloc, facts, test);
    }
    Ok(())
}

/// What is known where a test isn't 0 that is written otherwise now.
fn facts_where_not(
    alloc: Global,
    facts: &[Shared],
    test: &KExpr,
    now: &KExpr,
) -> Result<Items<Shared>, AllocError>
    requires { Becomes facts.now test.now now.now }
    ensures { IfOk result (λ there. WhereNot facts.now test.now there) }
{
    let mut there = copy_facts(alloc, facts)?;
    where_not(alloc, &mut there, test)?;
    where_not_if(alloc, &mut there, now, !same_expr(test, now))?;
    let all = with_told(alloc, there, now, 1)?;
    Ok(all)
}

/// What is known where a test is 0 that is written otherwise now.
fn facts_where_zero(
    alloc: Global,
    facts: Items<Shared>,
    test: &KExpr,
    now: &KExpr,
) -> Result<Items<Shared>, AllocError>
    requires { Becomes facts test.now now.now }
    ensures { IfOk result (λ there. WhereZero facts test.now there) }
{
    let mut there = facts;
    where_zero(alloc, &mut there, test)?;
    where_zero_if(alloc, &mut there, now, !same_expr(test, now))?;
    let all = with_told(alloc, there, now, 0)?;
    Ok(all)
}

/// A choice of two bodies, and what is known behind both.
fn joined(alloc: Global, test: KExpr, one: Passed, other: Passed) -> Result<Passed, AllocError>
    ensures code { IfOk result (λ p. p.code ≡ KStmt.If test one.code other.code ∷ []) }
    ensures first { IfOk result (λ p. Gives one.facts p.facts) }
    ensures second { IfOk result (λ p. Gives other.facts p.facts) }
{
    let facts = behind_choice(alloc, &test, one.facts, other.facts.as_slice())?;
    let code = one_statement(alloc, KStmt::If(test, one.code, other.code))?;
    Ok(Passed { code, facts })
}

/// A turn of a loop from facts that hold before its test.
#[cycle(flow)]
fn pass_turn(
    alloc: Global,
    body: &[KStmt],
    test: &KExpr,
    facts: &[Shared],
    policy: Policy<'_>,
) -> Result<Turned, AllocError>
    ensures { IfOk result (λ t. PassesTurn facts.now test.now body.now t.test t.body t.facts) }
{
    let now = rewrite(alloc, facts, test)?;
    let inside = facts_where_not(alloc, facts, test, &now)?;
    let turn = pass_code(alloc, body, inside, policy.of_loop())?;
    Ok(Turned {
        test: now,
        body: turn.code,
        facts: turn.facts,
    })
}

/// A loop whose turns keep these facts.
fn finished(
    alloc: Global,
    kind: LoopKind,
    test: &KExpr,
    body: &[KStmt],
    facts: Items<Shared>,
    turned: Turned,
) -> Result<Passed, AllocError>
    requires turn { PassesTurn facts test.now body.now turned.test turned.body turned.facts }
    requires kept { Gives turned.facts facts }
    ensures { IfOk result (λ p. Passes facts (KStmt.While kind test.now body.now ∷ []) p.code p.facts) }
{
    let mut facts = facts;
    where_zero(alloc, &mut facts, test)?;
    let code = one_statement(alloc, KStmt::While(kind, turned.test, turned.body))?;
    Ok(Passed { code, facts })
}

/// A loop of which this comes, behind which is also known what was known before it and mentions no variable that it sets.
fn with_apart(
    alloc: Global,
    kind: LoopKind,
    test: &KExpr,
    body: &[KStmt],
    facts: Items<Shared>,
    passed: Passed,
    set: &[bool],
) -> Result<Passed, AllocError>
    requires { Passes facts (KStmt.While kind test.now body.now ∷ []) passed.code passed.facts }
    ensures { IfOk result (λ p. Passes facts (KStmt.While kind test.now body.now ∷ []) p.code p.facts) }
{
    if !sets_only(body, set) {
        return Ok(passed);
    }
    let Passed { code, facts: more } = passed;
    let mut all = those_apart(alloc, facts, set)?;
    let others = those_beside(alloc, more, set)?;
    all.append(others)?;
    Ok(Passed { code, facts: all })
}

/// A loop by those of these facts that its turns keep and that may serve in them. It is passed once for each guess, and most often the
/// first is right; after the third it is passed with nothing known.
#[cycle(flow)]
fn pass_kept(
    alloc: Global,
    body: &[KStmt],
    kind: LoopKind,
    test: &KExpr,
    facts: &[Shared],
    changes: &Changes,
    policy: Policy<'_>,
) -> Result<Passed, AllocError>
    ensures { IfOk result (λ p. Passes facts.now (KStmt.While kind test.now body.now ∷ []) p.code p.facts) }
{
    let mut kept = likely(alloc, facts, changes)?;
    for _round in 0..2 {
        let turned = pass_turn(alloc, body, test, kept.as_slice(), policy)?;
        if all_among(kept.as_slice(), turned.facts.as_slice()) {
            return finished(alloc, kind, test, body, kept, turned);
        }
        kept = common(alloc, kept, turned.facts.as_slice())?;
    }
    let turned = pass_turn(alloc, body, test, &[], policy)?;
    finished(alloc, kind, test, body, Items::new(alloc), turned)
}

/// A loop by what is known before it.
#[cycle(flow)]
fn pass_loop(
    alloc: Global,
    body: &[KStmt],
    kind: LoopKind,
    test: &KExpr,
    facts: Items<Shared>,
    policy: Policy<'_>,
) -> Result<Passed, AllocError>
    ensures { IfOk result (λ p. Passes facts (KStmt.While kind test.now body.now ∷ []) p.code p.facts) }
{
    let changes = changes_of(alloc, test, body, facts.as_slice())?;
    let passed = pass_kept(alloc, body, kind, test, facts.as_slice(), &changes, policy)?;
    with_apart(alloc, kind, test, body, facts, passed, changes.set())
}

/// A statement by what is known before it.
#[cycle(flow)]
fn pass_statement(
    alloc: Global,
    s: &KStmt,
    facts: Items<Shared>,
    policy: Policy<'_>,
) -> Result<Passed, AllocError>
    ensures { IfOk result (λ p. Passes facts (s.now ∷ []) p.code p.facts) }
{
    match s {
        KStmt::Set(x, e) => pass_set(alloc, *x, e, facts, policy),
        KStmt::Combine(x, op, e, f) => pass_combine(alloc, *x, *op, e, f, facts),
        KStmt::Put(array, i, e) => pass_put(alloc, *array, i, e, facts),
        KStmt::AddTo(array, i, e) => pass_sum(alloc, *array, i, e, facts),
        KStmt::Push(array, e) => pass_push(alloc, *array, e, facts),
        KStmt::Extend(array, count, e) => pass_extend(alloc, *array, count, e, facts),
        KStmt::Cut(array, e) => pass_cut(alloc, *array, e, facts),
        KStmt::Sort(list) => pass_sort(alloc, *list, facts),
        KStmt::SortSum(workspace) => pass_sort_sum(alloc, *workspace, facts),
        KStmt::If(test, first, second) => {
            let now = rewrite(alloc, facts.as_slice(), test)?;
            match number(&now) {
                Some(0) => pass_code(alloc, second.as_slice(), facts, policy),
                Some(_) => pass_code(alloc, first.as_slice(), facts, policy),
                None => {
                    let there = facts_where_not(alloc, facts.as_slice(), test, &now)?;
                    let elsewhere = facts_where_zero(alloc, facts, test, &now)?;
                    let one = pass_code(alloc, first.as_slice(), there, policy.of_choice())?;
                    let other = pass_code(alloc, second.as_slice(), elsewhere, policy.of_choice())?;
                    joined(alloc, now, one, other)
                }
            }
        }
        KStmt::While(kind, test, body) => pass_loop(
            alloc,
            body.as_slice(),
            *kind,
            test,
            facts,
            policy,
        ),
    }
}

/// Code by what is known before it.
#[cycle(flow)]
pub(crate) fn pass_code(
    alloc: Global,
    code: &[KStmt],
    facts: Items<Shared>,
    policy: Policy<'_>,
) -> Result<Passed, AllocError>
    ensures { IfOk result (λ p. Passes facts code.now p.code p.facts) }
{
    let mut out = Items::new(alloc);
    let mut known = facts;
    for s in code {
        let passed = pass_statement(alloc, s, known, policy)?;
        out.append(passed.code)?;
        known = passed.facts;
    }
    Ok(Passed {
        code: out,
        facts: known,
    })
}
