// The names by which a load reads: a loop's load may read a copy of the variable that the load before the loop reads.
ghost use Rattle.std.specs.Prelude.{◌≡◌, IsTrue, IfOk, IfSome, List, OnOk};
ghost use Rattle.kernel_code.specs.declared.syntax.KStmt.{KStmt};
ghost use Rattle.simplifier.specs.Refines.{Refines};
ghost use Rattle.store_facts.specs.Facts.{KeepsFacts};
ghost use Rattle.store_facts.specs.Names.{AreOne, SetsAlike, IsLoadedAlike, MayEnd};
ghost use Rattle.store_facts.specs.declared.facts.StoreFact.{StoreFact};

use crate::loads::{Load, load_of, sets_last};
use kernel_code::{KExpr, KStmt, copy_statement};
use std::alloc::{AllocError, Global};
use trees::Items;

/// Whether two expressions are one, but for reading `x` in the first where the second reads `y`.
fn are_one(e: &KExpr, f: &KExpr, x: u64, y: u64) -> bool
    ensures { IsTrue result → AreOne x y e.now f.now }
{
    match (e, f) {
        (KExpr::Num(n), KExpr::Num(m)) => *n == *m,
        (KExpr::Var(z), KExpr::Var(w)) => *z == *w || (*z == x && *w == y),
        (KExpr::At(array, i), KExpr::At(other, j)) => {
            *array == *other && are_one(i.get(), j.get(), x, y)
        }
        (KExpr::Len(array), KExpr::Len(other)) => *array == *other,
        (KExpr::Bin(op, a, b), KExpr::Bin(other, c, d)) => {
            *op == *other && are_one(a.get(), c.get(), x, y) && are_one(b.get(), d.get(), x, y)
        }
        _ => false,
    }
}

/// Whether code gives the load's variable the load's coordinate, but for reading `y` where the load reads `x`, and does nothing else.
fn sets_alike(code: &[KStmt], load: &Load, x: u64, y: u64) -> bool
    ensures { IsTrue result → SetsAlike x y code.now load.now }
{
    match code {
        [KStmt::Set(z, e)] => *z == load.variable && are_one(&load.coordinate, e, x, y),
        _ => false,
    }
}

/// Whether a statement is the load, but for reading `y` where the load reads `x`.
fn is_loaded_alike(s: &KStmt, load: &Load, x: u64, y: u64) -> bool
    ensures { IsTrue result → IsLoadedAlike x y s.now load.now }
{
    match s {
        KStmt::If(test, first, second) => {
            are_one(&load.test, test, x, y)
                && sets_alike(first.as_slice(), load, x, y)
                && sets_last(second.as_slice(), load.variable)
        }
        _ => false,
    }
}

/// The variable that a statement sets and the one that it is a copy of, if it is one.
fn copied_variable(s: &KStmt) -> Option<(u64, u64)>
    ensures { IfSome result (λ pair. s.now ≡ KStmt.Set pair.0 (KExpr.Var pair.1)) }
{
    match s {
        KStmt::Set(x, KExpr::Var(y)) => Some((*x, *y)),
        _ => None,
    }
}

/// The load that ends a loop's body, where it may stand for the one that ends the code before the loop. Refused only for want of memory.
fn named_load(alloc: Global, before: &[KStmt], body: &[KStmt]) -> Result<Option<KStmt>, AllocError>
    ensures { IfOk result (λ found. IfSome found (MayEnd before.now)) }
{
    let Some((ahead, front)) = before.split_last() else {
        return Ok(None);
    };
    let Some((copy, _)) = front.split_last() else {
        return Ok(None);
    };
    let Some((x, y)) = copied_variable(copy) else {
        return Ok(None);
    };
    let Some((behind, _)) = body.split_last() else {
        return Ok(None);
    };
    let Some(load) = load_of(alloc, behind)? else {
        return Ok(None);
    };
    if !is_loaded_alike(ahead, &load, x, y) {
        return Ok(None);
    }
    let named = copy_statement(alloc, behind)?;
    Ok(Some(named))
}

/// Has the load that ends the code before a loop read by the names that the load at the end of the loop's body reads by, where it reads a
/// variable and the other a copy of it that was just made. Refused only for want of memory.
pub(crate) fn name_load(
    alloc: Global,
    body: &[KStmt],
    out: &mut Items<KStmt>,
) -> Result<(), AllocError>
    ensures { OnOk result ((facts : List StoreFact) → Refines (KeepsFacts facts) out.new out.old) }
{
    match named_load(alloc, out.as_slice(), body)? {
        Some(named) => {
            out.pop();
            out.push(named)
        }
        None => Ok(()),
    }
}
