// Ranges read in place of sizes.
ghost use Rattle.std.specs.Prelude.{◌≡◌, [], ◌∷◌, IfOk};
ghost use Rattle.simplifier.specs.Refines.{Refines, RefinesKernel};
ghost use Rattle.store_facts.specs.Facts.{Becomes, KeepsFacts};

use crate::facts::{StoreFact, range_of_size};
use kernel_code::{Arr, KExpr, KStmt, Kernel, binary, word_at};
use simplifier::is_number;
use std::alloc::{AllocError, Global};
use trees::{Boxed, Items};

/// A word of an array, or the range that it is known to be.
fn read(alloc: Global, facts: &[StoreFact], array: Arr, index: KExpr) -> Result<KExpr, AllocError>
    ensures { IfOk result (λ r. Becomes facts.now (KExpr.At array index) r) }
{
    match array {
        Arr::Dimension(tensor, level) if is_number(&index, 0) => {
            match range_of_size(facts, tensor, level) {
                Some(variable) => word_at(alloc, Arr::Range, KExpr::Num(variable)),
                None => word_at(alloc, array, index),
            }
        }
        _ => word_at(alloc, array, index),
    }
}

/// An expression in which each size that is known to be a range is read as that range.
fn by_ranges(alloc: Global, facts: &[StoreFact], e: &KExpr) -> Result<KExpr, AllocError>
    ensures { IfOk result (λ r. Becomes facts.now e.now r) }
{
    match e {
        KExpr::Num(n) => Ok(KExpr::Num(*n)),
        KExpr::Var(x) => Ok(KExpr::Var(*x)),
        KExpr::At(array, index) => {
            let index = by_ranges(alloc, facts, index.get())?;
            read(alloc, facts, *array, index)
        }
        KExpr::Len(array) => Ok(KExpr::Len(*array)),
        KExpr::Bin(op, a, b) => {
            let a = by_ranges(alloc, facts, a.get())?;
            let b = by_ranges(alloc, facts, b.get())?;
            binary(alloc, *op, a, b)
        }
        KExpr::Min(a, b) => {
            let first = by_ranges(alloc, facts, a.get())?;
            let second = by_ranges(alloc, facts, b.get())?;
            let c = Boxed::new(alloc, first)?;
            let d = Boxed::new(alloc, second)?;
            Ok(KExpr::Min(c, d))
        }
        KExpr::Width(e) => {
            let new = by_ranges(alloc, facts, e.get())?;
            let boxed = Boxed::new(alloc, new)?;
            Ok(KExpr::Width(boxed))
        }
    }
}

/// A statement by ranges.
#[cycle(sizes)]
fn statement_by_ranges(alloc: Global, facts: &[StoreFact], s: &KStmt) -> Result<KStmt, AllocError>
    ensures { IfOk result (λ k. Refines (KeepsFacts facts.now) (k ∷ []) (s.now ∷ [])) }
{
    match s {
        KStmt::Set(x, e) => Ok(KStmt::Set(*x, by_ranges(alloc, facts, e)?)),
        KStmt::Combine(x, op, e, f) => {
            let e = by_ranges(alloc, facts, e)?;
            let f = by_ranges(alloc, facts, f)?;
            Ok(KStmt::Combine(*x, *op, e, f))
        }
        KStmt::Put(a, i, e) => {
            let i = by_ranges(alloc, facts, i)?;
            let e = by_ranges(alloc, facts, e)?;
            Ok(KStmt::Put(*a, i, e))
        }
        KStmt::AddTo(a, i, e) => {
            let i = by_ranges(alloc, facts, i)?;
            let e = by_ranges(alloc, facts, e)?;
            Ok(KStmt::AddTo(*a, i, e))
        }
        KStmt::Push(a, e) => Ok(KStmt::Push(*a, by_ranges(alloc, facts, e)?)),
        KStmt::Extend(a, count, e) => {
            let count = by_ranges(alloc, facts, count)?;
            let e = by_ranges(alloc, facts, e)?;
            Ok(KStmt::Extend(*a, count, e))
        }
        KStmt::Cut(a, e) => Ok(KStmt::Cut(*a, by_ranges(alloc, facts, e)?)),
        KStmt::Sort(list) => Ok(KStmt::Sort(*list)),
        KStmt::SortSum(workspace) => Ok(KStmt::SortSum(*workspace)),
        KStmt::If(test, first, second) => {
            let test = by_ranges(alloc, facts, test)?;
            let first = code_by_ranges(alloc, facts, first.as_slice())?;
            let second = code_by_ranges(alloc, facts, second.as_slice())?;
            Ok(KStmt::If(test, first, second))
        }
        KStmt::While(kind, test, body) => {
            let test = by_ranges(alloc, facts, test)?;
            let body = code_by_ranges(alloc, facts, body.as_slice())?;
            Ok(KStmt::While(*kind, test, body))
        }
    }
}

/// Statements by ranges, in order.
#[cycle(sizes)]
fn code_by_ranges(
    alloc: Global,
    facts: &[StoreFact],
    code: &[KStmt],
) -> Result<Items<KStmt>, AllocError>
    ensures { IfOk result (λ new. Refines (KeepsFacts facts.now) new code.now) }
{
    let mut out = Items::new(alloc);
    for s in code {
        let new = statement_by_ranges(alloc, facts, s)?;
        out.push(new)?;
    }
    Ok(out)
}

/// A kernel that does the same wherever these facts hold and this one isn't stuck, in which each size that is known to be the range of a
/// variable is read as that range. Refused only for want of memory. It takes time linear in the kernel's size times the number of facts.
pub fn sizes_as_ranges(
    alloc: Global,
    kernel: Kernel,
    facts: &[StoreFact],
) -> Result<Kernel, AllocError>
    ensures { IfOk result (λ k. RefinesKernel (KeepsFacts facts.now) k kernel) }
{
    let Kernel {
        semiring,
        workspaces,
        lists,
        body,
    } = kernel;
    let new = code_by_ranges(alloc, facts, body.as_slice())?;
    Ok(Kernel {
        semiring,
        workspaces,
        lists,
        body: new,
    })
}
