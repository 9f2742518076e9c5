// What is left of statements that have no bodies.
ghost use Rattle.std.specs.Prelude.{◌≡◌, IfOk};
ghost use Rattle.dead_code.specs.Gathers.{AreGathered, Leaves};
ghost use Rattle.dead_code.specs.Live.{Covers};

use crate::live::{forget, is_live};
use crate::operands::{gather_live, gather_one};
use kernel_code::{Arr, KExpr, KStmt, ValueOp};
use std::alloc::{AllocError, Global};
use trees::Items;

/// What is left of a statement, and how many of the statements before it aren't needed any more.
#[derive(Drop)]
pub(crate) struct Left {
    pub statement: Option<KStmt>,
    pub taken: usize,
}

/// What is left of a statement that gives a variable a value.
pub(crate) fn live_set(
    alloc: Global,
    before: &[KStmt],
    x: u64,
    e: &KExpr,
    live: &mut Items<bool>,
) -> Result<Left, AllocError>
    ensures { IfOk result (λ left. Leaves live.new before.now (KStmt.Set x e.now) left.statement left.taken live.old) }
{
    if !is_live(live.as_slice(), x) {
        return Ok(Left {
            statement: None,
            taken: 0,
        });
    }
    forget(live, x);
    let operands = gather_one(alloc, before, e, live)?;
    let taken = operands.taken;
    Ok(Left {
        statement: Some(KStmt::Set(x, operands.into_first())),
        taken,
    })
}

/// What is left of a statement that gives a variable the sum or the product of two values.
pub(crate) fn live_combine(
    alloc: Global,
    before: &[KStmt],
    x: u64,
    op: ValueOp,
    e: &KExpr,
    f: &KExpr,
    live: &mut Items<bool>,
) -> Result<Left, AllocError>
    ensures { IfOk result (λ left. Leaves live.new before.now (KStmt.Combine x op e.now f.now) left.statement left.taken live.old) }
{
    if !is_live(live.as_slice(), x) {
        return Ok(Left {
            statement: None,
            taken: 0,
        });
    }
    forget(live, x);
    let operands = gather_live(alloc, before, e, f, live)?;
    Ok(Left {
        statement: Some(KStmt::Combine(x, op, operands.first, operands.second)),
        taken: operands.taken,
    })
}

/// What is left of a statement that stores a word at an index.
pub(crate) fn live_put(
    alloc: Global,
    before: &[KStmt],
    a: Arr,
    i: &KExpr,
    e: &KExpr,
    live: &mut Items<bool>,
) -> Result<Left, AllocError>
    ensures { IfOk result (λ left. Leaves live.new before.now (KStmt.Put a i.now e.now) left.statement left.taken live.old) }
{
    let operands = gather_live(alloc, before, i, e, live)?;
    Ok(Left {
        statement: Some(KStmt::Put(a, operands.first, operands.second)),
        taken: operands.taken,
    })
}

/// What is left of a statement that adds a word at an index.
pub(crate) fn live_sum(
    alloc: Global,
    before: &[KStmt],
    a: Arr,
    i: &KExpr,
    e: &KExpr,
    live: &mut Items<bool>,
) -> Result<Left, AllocError>
    ensures { IfOk result (λ left. Leaves live.new before.now (KStmt.AddTo a i.now e.now) left.statement left.taken live.old) }
{
    let operands = gather_live(alloc, before, i, e, live)?;
    Ok(Left {
        statement: Some(KStmt::AddTo(a, operands.first, operands.second)),
        taken: operands.taken,
    })
}

/// What is left of a statement that appends a word.
pub(crate) fn live_push(
    alloc: Global,
    before: &[KStmt],
    a: Arr,
    e: &KExpr,
    live: &mut Items<bool>,
) -> Result<Left, AllocError>
    ensures { IfOk result (λ left. Leaves live.new before.now (KStmt.Push a e.now) left.statement left.taken live.old) }
{
    let operands = gather_one(alloc, before, e, live)?;
    let taken = operands.taken;
    Ok(Left {
        statement: Some(KStmt::Push(a, operands.into_first())),
        taken,
    })
}

/// What is left of a statement that appends copies of a word.
pub(crate) fn live_extend(
    alloc: Global,
    before: &[KStmt],
    a: Arr,
    count: &KExpr,
    e: &KExpr,
    live: &mut Items<bool>,
) -> Result<Left, AllocError>
    ensures { IfOk result (λ left. Leaves live.new before.now (KStmt.Extend a count.now e.now) left.statement left.taken live.old) }
{
    let operands = gather_live(alloc, before, count, e, live)?;
    Ok(Left {
        statement: Some(KStmt::Extend(a, operands.first, operands.second)),
        taken: operands.taken,
    })
}

/// What is left of a statement that keeps the first words.
pub(crate) fn live_cut(
    alloc: Global,
    before: &[KStmt],
    a: Arr,
    e: &KExpr,
    live: &mut Items<bool>,
) -> Result<Left, AllocError>
    ensures { IfOk result (λ left. Leaves live.new before.now (KStmt.Cut a e.now) left.statement left.taken live.old) }
{
    let operands = gather_one(alloc, before, e, live)?;
    let taken = operands.taken;
    Ok(Left {
        statement: Some(KStmt::Cut(a, operands.into_first())),
        taken,
    })
}

/// What is left of a statement that sorts the rows of a scratch list.
pub(crate) fn live_sort(list: u64, before: &[KStmt], live: &Items<bool>) -> Left
    ensures { Leaves live.now before.now (KStmt.Sort list) result.statement result.taken live.now }
{
    Left {
        statement: Some(KStmt::Sort(list)),
        taken: 0,
    }
}

/// What is left of a statement that sorts and sums the rows of a workspace.
pub(crate) fn live_sort_sum(workspace: u64, before: &[KStmt], live: &Items<bool>) -> Left
    ensures { Leaves live.now before.now (KStmt.SortSum workspace) result.statement result.taken live.now }
{
    Left {
        statement: Some(KStmt::SortSum(workspace)),
        taken: 0,
    }
}
