// Code without statements that set variables which nothing reads, or one statement right behind alone.
ghost use Rattle.std.specs.Prelude.{◌≡◌, ◌∷◌, [], IfOk};
ghost use Rattle.dead_code.specs.Follows.{Follows};
ghost use Rattle.dead_code.specs.Gathers.{IsLeftOfChoice, Leaves};
ghost use Rattle.dead_code.specs.Live.{Agree, Covers};

use crate::choices::joined;
use crate::live::{add_reads, covers};
use crate::reads::add_first_reads;
use crate::statements::{
    Left, live_combine, live_cut, live_extend, live_push, live_put, live_set, live_sort,
    live_sort_sum, live_sum,
};
use kernel_code::{KExpr, KStmt, LoopKind, copy_expr};
use std::alloc::{AllocError, Global};
use trees::Items;

/// A loop's body, and what is live before and behind it.
#[derive(Drop)]
struct Turn {
    body: Items<KStmt>,
    live: Items<bool>,
}

/// A body with the same live before and behind it: these variables, or all where they don't suffice.
#[cycle(dead)]
fn pass_turn(alloc: Global, body: &[KStmt], live: Items<bool>) -> Result<Turn, AllocError>
    ensures same { IfOk result (λ t. Follows (Agree t.live) body.now t.body (Agree t.live)) }
    ensures covers { IfOk result (λ t. Covers t.live live) }
{
    let mut inside = Items::from_slice(alloc, live.as_slice())?;
    let left = live_code(alloc, body, &mut inside)?;
    if covers(live.as_slice(), inside.as_slice()) {
        return Ok(Turn { body: left, live });
    }
    let mut all = Items::new(alloc);
    let left = live_code(alloc, body, &mut all)?;
    Ok(Turn {
        body: left,
        live: Items::new(alloc),
    })
}

/// What is left of a loop.
#[cycle(dead)]
fn live_loop(
    alloc: Global,
    body: &[KStmt],
    before: &[KStmt],
    kind: LoopKind,
    test: &KExpr,
    live: &mut Items<bool>,
) -> Result<Left, AllocError>
    ensures { IfOk result (λ left. Leaves live.new before.now (KStmt.While kind test.now body.now) left.statement left.taken live.old) }
{
    let mut head = Items::from_slice(alloc, live.as_slice())?;
    add_reads(&mut head, test);
    add_first_reads(alloc, body, &mut head)?;
    let turn = pass_turn(alloc, body, head)?;
    let test = copy_expr(alloc, test)?;
    *live = turn.live;
    Ok(Left {
        statement: Some(KStmt::While(kind, test, turn.body)),
        taken: 0,
    })
}

/// What is left of a statement and of those right before it, where these variables are live behind it, and then those before it.
#[cycle(dead)]
fn live_statement(
    alloc: Global,
    s: &KStmt,
    before: &[KStmt],
    live: &mut Items<bool>,
) -> Result<Left, AllocError>
    ensures { IfOk result (λ left. Leaves live.new before.now s.now left.statement left.taken live.old) }
{
    match s {
        KStmt::Set(x, e) => live_set(alloc, before, *x, e, live),
        KStmt::Combine(x, op, e, f) => live_combine(alloc, before, *x, *op, e, f, live),
        KStmt::Put(a, i, e) => live_put(alloc, before, *a, i, e, live),
        KStmt::AddTo(a, i, e) => live_sum(alloc, before, *a, i, e, live),
        KStmt::Push(a, e) => live_push(alloc, before, *a, e, live),
        KStmt::Extend(a, count, e) => live_extend(alloc, before, *a, count, e, live),
        KStmt::Cut(a, e) => live_cut(alloc, before, *a, e, live),
        KStmt::Sort(list) => Ok(live_sort(*list, before, live)),
        KStmt::SortSum(workspace) => Ok(live_sort_sum(*workspace, before, live)),
        KStmt::If(test, first, second) => {
            let mut there = Items::from_slice(alloc, live.as_slice())?;
            let one = live_code(alloc, first.as_slice(), &mut there)?;
            let other = live_code(alloc, second.as_slice(), live)?;
            joined(alloc, before, test, one, other, there.as_slice(), live)
        }
        KStmt::While(kind, test, body) => {
            live_loop(alloc, body.as_slice(), before, *kind, test, live)
        }
    }
}

/// What is left of code, where these variables are live behind it, and then those before it. Statements are passed from the last on.
#[cycle(dead)]
pub(crate) fn live_code(
    alloc: Global,
    code: &[KStmt],
    live: &mut Items<bool>,
) -> Result<Items<KStmt>, AllocError>
    ensures { IfOk result (λ left. Follows (Agree live.new) code.now left (Agree live.old)) }
{
    let mut backwards = Vec::new(alloc);
    let mut end = code.len();
    while end > 0 {
        let last = end - 1;
        let Left { statement, taken } = live_statement(alloc, &code[last], &code[..last], live)?;
        if let Some(s) = statement {
            backwards.push(s)?;
        }
        end = last - taken;
    }
    backwards.reverse();
    Ok(Items::from_vec(backwards))
}
