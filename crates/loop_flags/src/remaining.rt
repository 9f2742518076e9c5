//! Whether a part of the terms below remains, and whether it is full at a loop, as expressions over the accesses' flags.
ghost use Rattle.std.specs.Prelude.{◌≡◌, ◌<◌, [], length, IfOk};
ghost use Rattle.loop_code.specs.Parts.{here, remains, remains_below, is_full_below, is_other};
ghost use Rattle.loop_code.specs.Places.{EachAccess};
ghost use Rattle.operand_arrays.specs.Terms.{EachTerm};
ghost use Rattle.term_code.specs.Presence.{Tells};
ghost use Rattle.loop_flags.specs.Told.{TellsOf};

use crate::flags::{either, there};
use crate::told::{Told, flag_of, with_flag};
use index_notation::Expr;
use kernel_code::KExpr;
use loop_code::{LoopCode, Seek};
use std::alloc::{AllocError, Global};
use term_code::{Places, fullness_of};

/// An expression that is 1 where the part of `expr` that remains is full at a loop with these seeks, and else 0. Of accesses of which
/// flags are given the part is full where these tell that they are.
fn full_in(
    alloc: Global,
    places: &Places,
    told: &[Told],
    seeks: &[Seek],
    expr: &Expr,
) -> Result<KExpr, AllocError>
    requires { EachAccess (λ k. k < length places.now.accesses) expr.now }
    ensures { IfOk result (TellsOf places.now told.now seeks.now (λ P. remains P expr.now)) }
{
    match expr {
        Expr::Num(_) => fullness_of(alloc, places, seeks, expr),
        Expr::Access(access) => match flag_of(alloc, told, *access)? {
            Some(flag) => Ok(flag),
            None => fullness_of(alloc, places, seeks, expr),
        },
        Expr::Binary(operator, first, second) => {
            let x = full_in(alloc, places, told, seeks, first.get())?;
            let y = full_in(alloc, places, told, seeks, second.get())?;
            let flag = there(alloc, *operator, x, y)?;
            Ok(flag)
        }
        Expr::Neg(inner) => full_in(alloc, places, told, seeks, inner.get()),
    }
}

/// An expression that is 1 where a part of `expr` remains, and else 0.
pub(crate) fn remains_in(
    alloc: Global,
    places: &Places,
    told: &[Told],
    expr: &Expr,
) -> Result<KExpr, AllocError>
    requires { EachAccess (λ k. k < length places.now.accesses) expr.now }
    ensures { IfOk result (TellsOf places.now told.now [] (λ P. remains P expr.now)) }
{
    let flag = full_in(alloc, places, told, &[], expr)?;
    Ok(flag)
}

/// An expression that is 1 where the part of some term below that remains is full at a loop with these seeks, and else 0. Of accesses of
/// which flags are given the part is full where these tell that they are.
pub(crate) fn full_with(
    alloc: Global,
    places: &Places,
    told: &[Told],
    seeks: &[Seek],
    loops: &LoopCode,
) -> Result<KExpr, AllocError>
    requires { EachTerm (λ t. EachAccess (λ k. k < length places.now.accesses) t.expr) loops.now }
    ensures { IfOk result (TellsOf places.now told.now seeks.now (λ P. remains_below P loops.now)) }
{
    match loops {
        LoopCode::Loop { body, .. } => full_with(alloc, places, told, seeks, body.get()),
        LoopCode::Both(first, second) => {
            let x = full_with(alloc, places, told, seeks, first.get())?;
            let y = full_with(alloc, places, told, seeks, second.get())?;
            let flag = either(alloc, x, y)?;
            Ok(flag)
        }
        LoopCode::Add(term) => full_in(alloc, places, told, seeks, &term.expr),
        LoopCode::Sum { sum, inside, body } => {
            let within = full_with(alloc, places, told, seeks, inside.get())?;
            let more = with_flag(alloc, told, *sum, within)?;
            full_with(alloc, places, more.as_slice(), seeks, body.get())
        }
    }
}

/// An expression that is 1 where the part of some term below that remains is full at a loop with these seeks, and else 0.
/// Refused only for want of memory.
pub fn fullness_below(
    alloc: Global,
    places: &Places,
    seeks: &[Seek],
    loops: &LoopCode,
) -> Result<KExpr, AllocError>
    requires { EachTerm (λ t. EachAccess (λ k. k < length places.now.accesses) t.expr) loops.now }
    ensures { IfOk result (Tells places.now (λ env. is_full_below (is_other seeks.now) (here env) loops.now)) }
{
    let flag = full_with(alloc, places, &[], seeks, loops)?;
    Ok(flag)
}

/// An expression that is 1 where a part of some term below remains, and else 0. Refused only for want of memory.
pub fn remains_of(alloc: Global, places: &Places, loops: &LoopCode) -> Result<KExpr, AllocError>
    requires { EachTerm (λ t. EachAccess (λ k. k < length places.now.accesses) t.expr) loops.now }
    ensures { IfOk result (Tells places.now (λ env. remains_below (here env) loops.now)) }
{
    let flag = full_with(alloc, places, &[], &[], loops)?;
    Ok(flag)
}
