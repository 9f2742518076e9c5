// Which variables stand in code, in order. No contract tells it: a variable that is left out is found where code is numbered.
use crate::table::Numbers;
use kernel_code::{KExpr, KStmt};
use std::alloc::AllocError;

/// Meets the variables of an expression.
fn meet_expr(e: &KExpr, numbers: &mut Numbers) -> Result<(), AllocError> {
    match e {
        KExpr::Num(_) | KExpr::Len(_) => Ok(()),
        KExpr::Var(x) => numbers.meet(*x),
        KExpr::At(_, e) | KExpr::Width(e) => meet_expr(e.get(), numbers),
        KExpr::Bin(_, a, b) | KExpr::Min(a, b) => {
            meet_expr(a.get(), numbers)?;
            meet_expr(b.get(), numbers)
        }
    }
}

/// Meets the variables of a statement: the one that it sets before those of its expressions.
#[cycle(meet)]
fn meet_statement(s: &KStmt, numbers: &mut Numbers) -> Result<(), AllocError> {
    match s {
        KStmt::Set(x, e) => {
            numbers.meet(*x)?;
            meet_expr(e, numbers)
        }
        KStmt::Combine(x, _, e, f) => {
            numbers.meet(*x)?;
            meet_expr(e, numbers)?;
            meet_expr(f, numbers)
        }
        KStmt::Put(_, i, e) | KStmt::AddTo(_, i, e) | KStmt::Extend(_, i, e) => {
            meet_expr(i, numbers)?;
            meet_expr(e, numbers)
        }
        KStmt::Push(_, e) | KStmt::Cut(_, e) => meet_expr(e, numbers),
        KStmt::Sort(_) | KStmt::SortSum(_) => Ok(()),
        KStmt::If(test, first, second) => {
            meet_expr(test, numbers)?;
            meet_code(first.as_slice(), numbers)?;
            meet_code(second.as_slice(), numbers)
        }
        KStmt::While(_, test, body) => {
            meet_expr(test, numbers)?;
            meet_code(body.as_slice(), numbers)
        }
    }
}

/// Meets the variables of code in the order in which they first stand in its text. Refused only for want of memory.
#[cycle(meet)]
pub(crate) fn meet_code(code: &[KStmt], numbers: &mut Numbers) -> Result<(), AllocError> {
    for s in code {
        meet_statement(s, numbers)?;
    }
    Ok(())
}
