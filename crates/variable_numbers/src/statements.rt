// Code with other numbers for its variables.
ghost use Rattle.std.specs.Prelude.{◌≡◌, ◌∷◌, [], IfOk};
ghost use Rattle.dead_code.specs.Follows.{Follows};
ghost use Rattle.variable_numbers.specs.Numbers.{Renamed};

use crate::exprs::{number_expr, number_of};
use crate::refusal::Refusal;
use crate::table::Numbers;
use kernel_code::{KExpr, KStmt};
use std::alloc::Global;
use trees::Items;

/// The statement over the numbers of its variables.
#[cycle(number)]
fn number_statement(alloc: Global, s: &KStmt, numbers: &Numbers) -> Result<KStmt, Refusal>
    ensures { let tie = Renamed numbers.now.names in IfOk result (λ t. Follows tie (s.now ∷ []) (t ∷ []) tie) }
{
    match s {
        KStmt::Set(x, e) => {
            let x = number_of(numbers, *x)?;
            let e = number_expr(alloc, e, numbers)?;
            Ok(KStmt::Set(x, e))
        }
        KStmt::Combine(x, op, e, f) => {
            let x = number_of(numbers, *x)?;
            let e = number_expr(alloc, e, numbers)?;
            let f = number_expr(alloc, f, numbers)?;
            Ok(KStmt::Combine(x, *op, e, f))
        }
        KStmt::Put(a, i, e) => {
            let i = number_expr(alloc, i, numbers)?;
            let e = number_expr(alloc, e, numbers)?;
            Ok(KStmt::Put(*a, i, e))
        }
        KStmt::AddTo(a, i, e) => {
            let i = number_expr(alloc, i, numbers)?;
            let e = number_expr(alloc, e, numbers)?;
            Ok(KStmt::AddTo(*a, i, e))
        }
        KStmt::Push(a, e) => {
            let e = number_expr(alloc, e, numbers)?;
            Ok(KStmt::Push(*a, e))
        }
        KStmt::Extend(a, i, e) => {
            let i = number_expr(alloc, i, numbers)?;
            let e = number_expr(alloc, e, numbers)?;
            Ok(KStmt::Extend(*a, i, e))
        }
        KStmt::Cut(a, e) => {
            let e = number_expr(alloc, e, numbers)?;
            Ok(KStmt::Cut(*a, e))
        }
        KStmt::Sort(list) => Ok(KStmt::Sort(*list)),
        KStmt::SortSum(workspace) => Ok(KStmt::SortSum(*workspace)),
        KStmt::If(test, first, second) => {
            let test = number_expr(alloc, test, numbers)?;
            let first = number_code(alloc, first.as_slice(), numbers)?;
            let second = number_code(alloc, second.as_slice(), numbers)?;
            Ok(KStmt::If(test, first, second))
        }
        KStmt::While(kind, test, body) => {
            let test = number_expr(alloc, test, numbers)?;
            let body = number_code(alloc, body.as_slice(), numbers)?;
            Ok(KStmt::While(*kind, test, body))
        }
    }
}

/// The code over the numbers of its variables.
#[cycle(number)]
pub(crate) fn number_code(
    alloc: Global,
    code: &[KStmt],
    numbers: &Numbers,
) -> Result<Items<KStmt>, Refusal>
    ensures { let tie = Renamed numbers.now.names in IfOk result (λ new. Follows tie code.now new tie) }
{
    let mut numbered = Items::new(alloc);
    for s in code {
        let s = number_statement(alloc, s, numbers)?;
        numbered.push(s)?;
    }
    Ok(numbered)
}
