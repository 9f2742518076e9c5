ghost use Rattle.std.specs.Prelude.{◌≡◌, IfOk};

use crate::syntax::{KExpr, KStmt};
use std::alloc::{AllocError, Global};
use trees::{Boxed, Items};

/// An equal expression. Refused only for want of memory.
#[cycle(copy_of_expr)]
pub fn copy_expr(alloc: Global, e: &KExpr) -> Result<KExpr, AllocError>
    ensures { IfOk result (λ c. c ≡ e.now) }
{
    match e {
        KExpr::Num(n) => Ok(KExpr::Num(*n)),
        KExpr::Var(x) => Ok(KExpr::Var(*x)),
        KExpr::At(a, i) => {
            let i = copy_boxed(alloc, i)?;
            Ok(KExpr::At(*a, i))
        }
        KExpr::Len(a) => Ok(KExpr::Len(*a)),
        KExpr::Bin(op, a, b) => {
            let a = copy_boxed(alloc, a)?;
            let b = copy_boxed(alloc, b)?;
            Ok(KExpr::Bin(*op, a, b))
        }
        KExpr::Min(a, b) => {
            let a = copy_boxed(alloc, a)?;
            let b = copy_boxed(alloc, b)?;
            Ok(KExpr::Min(a, b))
        }
        KExpr::Width(e) => {
            let e = copy_boxed(alloc, e)?;
            Ok(KExpr::Width(e))
        }
    }
}

#[cycle(copy_of_expr)]
fn copy_boxed(alloc: Global, e: &Boxed<KExpr>) -> Result<Boxed<KExpr>, AllocError>
    ensures { IfOk result (λ c. c ≡ e.now) }
{
    let copy = copy_expr(alloc, e.get())?;
    Boxed::new(alloc, copy)
}

/// An equal statement. Refused only for want of memory.
#[cycle(copy)]
pub fn copy_statement(alloc: Global, s: &KStmt) -> Result<KStmt, AllocError>
    ensures { IfOk result (λ c. c ≡ s.now) }
{
    match s {
        KStmt::Set(x, e) => Ok(KStmt::Set(*x, copy_expr(alloc, e)?)),
        KStmt::Combine(x, op, e, f) => {
            let e = copy_expr(alloc, e)?;
            Ok(KStmt::Combine(*x, *op, e, copy_expr(alloc, f)?))
        }
        KStmt::Put(a, i, e) => {
            let i = copy_expr(alloc, i)?;
            Ok(KStmt::Put(*a, i, copy_expr(alloc, e)?))
        }
        KStmt::AddTo(a, i, e) => {
            let i = copy_expr(alloc, i)?;
            Ok(KStmt::AddTo(*a, i, copy_expr(alloc, e)?))
        }
        KStmt::Push(a, e) => Ok(KStmt::Push(*a, copy_expr(alloc, e)?)),
        KStmt::Extend(a, count, e) => {
            let count = copy_expr(alloc, count)?;
            Ok(KStmt::Extend(*a, count, copy_expr(alloc, e)?))
        }
        KStmt::Cut(a, e) => Ok(KStmt::Cut(*a, copy_expr(alloc, e)?)),
        KStmt::Sort(list) => Ok(KStmt::Sort(*list)),
        KStmt::SortSum(workspace) => Ok(KStmt::SortSum(*workspace)),
        KStmt::If(e, first, second) => {
            let e = copy_expr(alloc, e)?;
            let first = copy_statements(alloc, first.as_slice())?;
            let second = copy_statements(alloc, second.as_slice())?;
            Ok(KStmt::If(e, first, second))
        }
        KStmt::While(kind, e, body) => {
            let e = copy_expr(alloc, e)?;
            let body = copy_statements(alloc, body.as_slice())?;
            Ok(KStmt::While(*kind, e, body))
        }
    }
}

/// Equal statements, in order. Refused only for want of memory.
#[cycle(copy)]
pub fn copy_statements(alloc: Global, statements: &[KStmt]) -> Result<Items<KStmt>, AllocError>
    ensures { IfOk result (λ c. c ≡ statements.now) }
{
    let mut copies = Items::new(alloc);
    for s in statements {
        let copy = copy_statement(alloc, s)?;
        copies.push(copy)?;
    }
    Ok(copies)
}
