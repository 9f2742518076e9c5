//! Whether a part of an expression remains, and whether the part is full at a loop, as expressions over the accesses' flags.
ghost use Rattle.std.specs.Prelude.{◌≡◌, ◌<◌, length, IfOk};
ghost use Rattle.loop_code.specs.Parts.{here, remains, is_full, is_iterator, is_other};
ghost use Rattle.loop_code.specs.Places.{EachAccess};
ghost use Rattle.term_code.specs.Presence.{Tells, flag_operator};

use crate::places::Places;
use index_notation::{Expr, Operator};
use kernel_code::{KExpr, Op, binary};
use loop_code::Seek;
use std::alloc::{AllocError, Global};

/// Whether a level of the access that isn't full is found at a loop with these seeks.
fn is_iterator(seeks: &[Seek], access: usize) -> bool
    ensures { result ≡ is_iterator seeks.now access }
{
    let Some((first, others)) = seeks.split_first() else {
        return false;
    };
    (first.access == access && !first.full) || is_iterator(others, access)
}

/// The flag of an access that is full at a loop with these seeks, and 0 for each other one.
fn full_flag(places: &Places, seeks: &[Seek], access: usize) -> KExpr
    requires { access < length places.now.accesses }
    ensures { Tells places.now (λ env. is_full (is_other seeks.now) (here env) (Expr.Access access)) result }
{
    if is_iterator(seeks, access) {
        return KExpr::Num(0);
    }
    let place = places.accesses.as_slice()[access];
    KExpr::Var(place.cursor)
}

/// The operator of flags that says whether the whole is there, by its sides.
fn flag_operator(operator: Operator) -> Op
    ensures { result ≡ flag_operator operator }
{
    match operator {
        Operator::Add => Op::Or,
        Operator::Sub => Op::Or,
        Operator::Mul => Op::And,
    }
}

/// An expression that is 1 where the part of `expr` that remains is full at a loop with these seeks, and else 0. Refused only
/// for want of memory.
pub fn fullness_of(
    alloc: Global,
    places: &Places,
    seeks: &[Seek],
    expr: &Expr,
) -> Result<KExpr, AllocError>
    requires { EachAccess (λ k. k < length places.now.accesses) expr.now }
    ensures { IfOk result (Tells places.now (λ env. is_full (is_other seeks.now) (here env) expr.now)) }
{
    match expr {
        Expr::Num(_) => Ok(KExpr::Num(1)),
        Expr::Access(access) => Ok(full_flag(places, seeks, *access)),
        Expr::Binary(operator, first, second) => {
            let x = fullness_of(alloc, places, seeks, first.get())?;
            let y = fullness_of(alloc, places, seeks, second.get())?;
            let flag = binary(alloc, flag_operator(*operator), x, y)?;
            Ok(flag)
        }
        Expr::Neg(inner) => fullness_of(alloc, places, seeks, inner.get()),
    }
}

/// An expression that is 1 where a part of `expr` remains, and else 0. Refused only for want of memory.
pub fn presence_of(alloc: Global, places: &Places, expr: &Expr) -> Result<KExpr, AllocError>
    requires { EachAccess (λ k. k < length places.now.accesses) expr.now }
    ensures { IfOk result (Tells places.now (λ env. remains (here env) expr.now)) }
{
    let flag = fullness_of(alloc, places, &[], expr)?;
    Ok(flag)
}
