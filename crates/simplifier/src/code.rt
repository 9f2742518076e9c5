// Statements.
ghost use Rattle.std.specs.Prelude.{◌≡◌, [], ◌∷◌, ◌++◌, IfOk, OnOk};
ghost use Rattle.simplifier.specs.Folded.{SimpleCode, SimpleExpr};
ghost use Rattle.simplifier.specs.Same.{SameRuns};

use crate::exprs::{is_zero, number, simplify_expr};
use crate::steps::{add_combine, add_cut, add_extend, add_push, add_put, add_set, add_sum};
use kernel_code::{KExpr, KStmt, LoopKind};
use numbers::Semiring;
use std::alloc::{AllocError, Global};
use trees::Items;

/// Appends what is left of a loop with a simple test: nothing where the test is 0.
#[cycle(code)]
fn add_loop<S: Semiring>(
    alloc: Global,
    body: &[KStmt],
    kind: LoopKind,
    test: KExpr,
    out: &mut Items<KStmt>,
) -> Result<(), AllocError>
    ensures same { OnOk result (SameRuns S.arithmetic out.new (out.old ++ KStmt.While kind test body.now ∷ [])) }
    ensures simple { SimpleExpr test → SimpleCode S.arithmetic out.old → OnOk result (SimpleCode S.arithmetic out.new) }
{
    if is_zero(&test) {
        return Ok(());
    }
    let body = simplify_code::<S>(alloc, body)?;
    out.push(KStmt::While(kind, test, body))
}

/// Appends what is left of a statement.
#[cycle(code)]
fn add_statement<S: Semiring>(
    alloc: Global,
    s: &KStmt,
    out: &mut Items<KStmt>,
) -> Result<(), AllocError>
    ensures same { OnOk result (SameRuns S.arithmetic out.new (out.old ++ s.now ∷ [])) }
    ensures simple { SimpleCode S.arithmetic out.old → OnOk result (SimpleCode S.arithmetic out.new) }
{
    match s {
        KStmt::Set(x, e) => add_set::<S>(alloc, *x, e, out),
        KStmt::Combine(x, op, e, f) => add_combine::<S>(alloc, *x, *op, e, f, out),
        KStmt::Put(array, index, e) => add_put::<S>(alloc, *array, index, e, out),
        KStmt::AddTo(array, index, e) => add_sum::<S>(alloc, *array, index, e, out),
        KStmt::Push(array, e) => add_push::<S>(alloc, *array, e, out),
        KStmt::Extend(array, count, e) => add_extend::<S>(alloc, *array, count, e, out),
        KStmt::Cut(array, e) => add_cut::<S>(alloc, *array, e, out),
        KStmt::Sort(list) => out.push(KStmt::Sort(*list)),
        KStmt::SortSum(workspace) => out.push(KStmt::SortSum(*workspace)),
        KStmt::If(test, first, second) => {
            let test = simplify_expr(alloc, test)?;
            match number(&test) {
                Some(0) => add_code::<S>(alloc, second.as_slice(), out),
                Some(_) => add_code::<S>(alloc, first.as_slice(), out),
                None => {
                    let first = simplify_code::<S>(alloc, first.as_slice())?;
                    let second = simplify_code::<S>(alloc, second.as_slice())?;
                    out.push(KStmt::If(test, first, second))
                }
            }
        }
        KStmt::While(kind, test, body) => {
            let test = simplify_expr(alloc, test)?;
            add_loop::<S>(alloc, body.as_slice(), *kind, test, out)
        }
    }
}

/// Appends what is left of statements.
#[cycle(code)]
fn add_code<S: Semiring>(
    alloc: Global,
    code: &[KStmt],
    out: &mut Items<KStmt>,
) -> Result<(), AllocError>
    ensures same { OnOk result (SameRuns S.arithmetic out.new (out.old ++ code.now)) }
    ensures simple { SimpleCode S.arithmetic out.old → OnOk result (SimpleCode S.arithmetic out.new) }
{
    for s in code {
        add_statement::<S>(alloc, s, out)?;
    }
    Ok(())
}

/// What is left of statements.
#[cycle(code)]
pub(crate) fn simplify_code<S: Semiring>(
    alloc: Global,
    code: &[KStmt],
) -> Result<Items<KStmt>, AllocError>
    ensures same { IfOk result (λ simple. SameRuns S.arithmetic simple code.now) }
    ensures simple { IfOk result (λ simple. SimpleCode S.arithmetic simple) }
{
    let mut out = Items::new(alloc);
    add_code::<S>(alloc, code, &mut out)?;
    Ok(out)
}
