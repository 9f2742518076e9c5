// Statements without bodies, whose expressions are made simple.
ghost use Rattle.std.specs.Prelude.{◌≡◌, [], ◌∷◌, ◌++◌, OnOk};
ghost use Rattle.simplifier.specs.Folded.{SimpleCode, operator_for};
ghost use Rattle.simplifier.specs.Same.{SameRuns};

use crate::exprs::{fold_binary, simplify_expr};
use kernel_code::{Arr, KExpr, KStmt, Op, ValueOp};
use numbers::Semiring;
use std::alloc::{AllocError, Global};
use trees::Items;

/// Appends a statement that gives a variable a value.
pub(crate) fn add_set<S: Semiring>(
    alloc: Global,
    x: u64,
    e: &KExpr,
    out: &mut Items<KStmt>,
) -> Result<(), AllocError>
    ensures same { OnOk result (SameRuns S.arithmetic out.new (out.old ++ KStmt.Set x e.now ∷ [])) }
    ensures simple { SimpleCode S.arithmetic out.old → OnOk result (SimpleCode S.arithmetic out.new) }
{
    let e = simplify_expr(alloc, e)?;
    out.push(KStmt::Set(x, e))
}

/// The operator of words that the ring's sum or product is.
fn operator_for(op: ValueOp) -> Op
    ensures { result ≡ operator_for op }
{
    match op {
        ValueOp::Plus => Op::Add,
        ValueOp::Times => Op::Mul,
    }
}

/// Appends a statement that gives a variable the sum or the product of two values: over the ring, that of words.
pub(crate) fn add_combine<S: Semiring>(
    alloc: Global,
    x: u64,
    op: ValueOp,
    e: &KExpr,
    f: &KExpr,
    out: &mut Items<KStmt>,
) -> Result<(), AllocError>
    ensures same { OnOk result (SameRuns S.arithmetic out.new (out.old ++ KStmt.Combine x op e.now f.now ∷ [])) }
    ensures simple { SimpleCode S.arithmetic out.old → OnOk result (SimpleCode S.arithmetic out.new) }
{
    let e = simplify_expr(alloc, e)?;
    let f = simplify_expr(alloc, f)?;
    if S::is_ring() {
        let words = fold_binary(alloc, operator_for(op), e, f)?;
        out.push(KStmt::Set(x, words))
    } else {
        out.push(KStmt::Combine(x, op, e, f))
    }
}

/// Appends a statement that stores a word.
pub(crate) fn add_put<S: Semiring>(
    alloc: Global,
    array: Arr,
    index: &KExpr,
    e: &KExpr,
    out: &mut Items<KStmt>,
) -> Result<(), AllocError>
    ensures same { OnOk result (SameRuns S.arithmetic out.new (out.old ++ KStmt.Put array index.now e.now ∷ [])) }
    ensures simple { SimpleCode S.arithmetic out.old → OnOk result (SimpleCode S.arithmetic out.new) }
{
    let index = simplify_expr(alloc, index)?;
    let e = simplify_expr(alloc, e)?;
    out.push(KStmt::Put(array, index, e))
}

/// Appends a statement that adds a word.
pub(crate) fn add_sum<S: Semiring>(
    alloc: Global,
    array: Arr,
    index: &KExpr,
    e: &KExpr,
    out: &mut Items<KStmt>,
) -> Result<(), AllocError>
    ensures same { OnOk result (SameRuns S.arithmetic out.new (out.old ++ KStmt.AddTo array index.now e.now ∷ [])) }
    ensures simple { SimpleCode S.arithmetic out.old → OnOk result (SimpleCode S.arithmetic out.new) }
{
    let index = simplify_expr(alloc, index)?;
    let e = simplify_expr(alloc, e)?;
    out.push(KStmt::AddTo(array, index, e))
}

/// Appends a statement that appends a word.
pub(crate) fn add_push<S: Semiring>(
    alloc: Global,
    array: Arr,
    e: &KExpr,
    out: &mut Items<KStmt>,
) -> Result<(), AllocError>
    ensures same { OnOk result (SameRuns S.arithmetic out.new (out.old ++ KStmt.Push array e.now ∷ [])) }
    ensures simple { SimpleCode S.arithmetic out.old → OnOk result (SimpleCode S.arithmetic out.new) }
{
    let e = simplify_expr(alloc, e)?;
    out.push(KStmt::Push(array, e))
}

/// Appends a statement that appends copies of a word.
pub(crate) fn add_extend<S: Semiring>(
    alloc: Global,
    array: Arr,
    count: &KExpr,
    e: &KExpr,
    out: &mut Items<KStmt>,
) -> Result<(), AllocError>
    ensures same { OnOk result (SameRuns S.arithmetic out.new (out.old ++ KStmt.Extend array count.now e.now ∷ [])) }
    ensures simple { SimpleCode S.arithmetic out.old → OnOk result (SimpleCode S.arithmetic out.new) }
{
    let count = simplify_expr(alloc, count)?;
    let e = simplify_expr(alloc, e)?;
    out.push(KStmt::Extend(array, count, e))
}

/// Appends a statement that keeps so many words.
pub(crate) fn add_cut<S: Semiring>(
    alloc: Global,
    array: Arr,
    e: &KExpr,
    out: &mut Items<KStmt>,
) -> Result<(), AllocError>
    ensures same { OnOk result (SameRuns S.arithmetic out.new (out.old ++ KStmt.Cut array e.now ∷ [])) }
    ensures simple { SimpleCode S.arithmetic out.old → OnOk result (SimpleCode S.arithmetic out.new) }
{
    let e = simplify_expr(alloc, e)?;
    out.push(KStmt::Cut(array, e))
}
