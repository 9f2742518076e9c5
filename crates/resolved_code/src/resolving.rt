//! Code resolved, statement by statement.
ghost use Rattle.std.specs.Prelude.{◌≡◌, IfOk, map};
ghost use Rattle.resolved_code.specs.Erase.{erase, erase_value};

use crate::shapes::resolve_value;
use crate::syntax::{Resolved, Value};
use kernel_code::{KExpr, KStmt};
use std::alloc::{AllocError, Global};
use trees::Items;

/// A statement that gives a variable a value. One that counts a variable on has a form of its own.
fn set_to(x: u64, value: Value) -> Resolved
    ensures { erase result ≡ KStmt.Set x (erase_value value) }
{
    match value {
        Value::AddNumber(y, n) if y == x => Resolved::Count(x, n),
        _ => Resolved::Set(x, value),
    }
}

/// A statement resolved. Refused only for want of memory.
#[cycle(resolve)]
fn resolve_statement(alloc: Global, s: &KStmt) -> Result<Resolved, AllocError>
    ensures { IfOk result (λ r. erase r ≡ s.now) }
{
    match s {
        KStmt::Set(x, e) => Ok(set_to(*x, resolve_value(alloc, e)?)),
        KStmt::Combine(x, op, e, f) => {
            let e = resolve_value(alloc, e)?;
            Ok(Resolved::Combine(*x, *op, e, resolve_value(alloc, f)?))
        }
        KStmt::Put(a, i, e) => {
            let i = resolve_value(alloc, i)?;
            Ok(Resolved::Put(*a, i, resolve_value(alloc, e)?))
        }
        KStmt::AddTo(a, i, e) => {
            let i = resolve_value(alloc, i)?;
            Ok(Resolved::AddTo(*a, i, resolve_value(alloc, e)?))
        }
        KStmt::Push(a, e) => Ok(Resolved::Push(*a, resolve_value(alloc, e)?)),
        KStmt::Extend(a, count, e) => {
            let count = resolve_value(alloc, count)?;
            Ok(Resolved::Extend(*a, count, resolve_value(alloc, e)?))
        }
        KStmt::Cut(a, e) => Ok(Resolved::Cut(*a, resolve_value(alloc, e)?)),
        KStmt::Sort(list) => Ok(Resolved::Sort(*list)),
        KStmt::SortSum(workspace) => Ok(Resolved::SortSum(*workspace)),
        KStmt::If(e, first, second) => {
            let e = resolve_value(alloc, e)?;
            let first = resolve(alloc, first.as_slice())?;
            let second = resolve(alloc, second.as_slice())?;
            Ok(Resolved::If(e, first, second))
        }
        KStmt::While(kind, e, body) => {
            let e = resolve_value(alloc, e)?;
            let body = resolve(alloc, body.as_slice())?;
            Ok(Resolved::While(*kind, e, body))
        }
    }
}

/// Code resolved: each statement stands for the one that it was made of. Refused only for want of memory.
#[cycle(resolve)]
pub fn resolve(alloc: Global, statements: &[KStmt]) -> Result<Items<Resolved>, AllocError>
    ensures { IfOk result (λ code. map erase code ≡ statements.now) }
{
    let mut code = Items::new(alloc);
    for s in statements {
        let resolved = resolve_statement(alloc, s)?;
        code.push(resolved)?;
    }
    Ok(code)
}
