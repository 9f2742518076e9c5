// Expressions with other numbers for their variables.
ghost use Rattle.std.specs.Prelude.{◌≡◌, IfOk, Some, slice_get};
ghost use Rattle.dead_code.specs.Follows.{ReadsAs};
ghost use Rattle.variable_numbers.specs.Numbers.{Renamed};

use crate::refusal::Refusal;
use crate::table::Numbers;
use kernel_code::KExpr;
use std::alloc::Global;
use trees::Boxed;

/// The number of a variable, which is refused where it has none.
pub(crate) fn number_of(numbers: &Numbers, x: u64) -> Result<u64, Refusal>
    ensures { IfOk result (λ i. slice_get numbers.now.names i ≡ Some x) }
{
    match numbers.number_of(x) {
        Some(i) => Ok(i),
        None => Err(Refusal::NoNumber),
    }
}

/// The expression over the numbers of its variables.
pub(crate) fn number_expr(alloc: Global, e: &KExpr, numbers: &Numbers) -> Result<KExpr, Refusal>
    ensures { IfOk result (λ f. ReadsAs (Renamed numbers.now.names) e.now f) }
{
    match e {
        KExpr::Num(n) => Ok(KExpr::Num(*n)),
        KExpr::Var(x) => {
            let i = number_of(numbers, *x)?;
            Ok(KExpr::Var(i))
        }
        KExpr::At(a, i) => {
            let i = number_expr(alloc, i.get(), numbers)?;
            Ok(KExpr::At(*a, Boxed::new(alloc, i)?))
        }
        KExpr::Len(a) => Ok(KExpr::Len(*a)),
        KExpr::Bin(op, a, b) => {
            let a = number_expr(alloc, a.get(), numbers)?;
            let b = number_expr(alloc, b.get(), numbers)?;
            let a = Boxed::new(alloc, a)?;
            Ok(KExpr::Bin(*op, a, Boxed::new(alloc, b)?))
        }
        KExpr::Min(a, b) => {
            let a = number_expr(alloc, a.get(), numbers)?;
            let b = number_expr(alloc, b.get(), numbers)?;
            let a = Boxed::new(alloc, a)?;
            Ok(KExpr::Min(a, Boxed::new(alloc, b)?))
        }
        KExpr::Width(e) => {
            let e = number_expr(alloc, e.get(), numbers)?;
            Ok(KExpr::Width(Boxed::new(alloc, e)?))
        }
    }
}
