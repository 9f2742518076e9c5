ghost use Rattle.std.specs.Prelude.{◌≡◌, ◌<◌, IfOk};
ghost use Rattle.level_cursors.specs.Ranges.{StartsRange, StepsRange, start_range_code, step_range_code};

use crate::codes::no_coordinate;
use kernel_code::{KExpr, KStmt, Op, binary, one_statement};
use std::alloc::{AllocError, Global};
use trees::Items;

fn range_start(alloc: Global, front: u64, flag: KExpr) -> Result<Items<KStmt>, AllocError>
    ensures { IfOk result (λ code. code ≡ start_range_code front flag) }
{
    let first = one_statement(alloc, KStmt::Set(front, KExpr::Num(0)))?;
    let none = one_statement(alloc, KStmt::Set(front, KExpr::Num(no_coordinate())))?;
    let code = one_statement(alloc, KStmt::If(flag, first, none))?;
    Ok(code)
}

fn range_step(alloc: Global, front: u64, x: u64) -> Result<Items<KStmt>, AllocError>
    ensures { IfOk result (λ code. code ≡ step_range_code front x) }
{
    let here = binary(alloc, Op::Equal, KExpr::Var(front), KExpr::Var(x))?;
    let next = binary(alloc, Op::Add, KExpr::Var(x), KExpr::Num(1))?;
    let there = one_statement(alloc, KStmt::Set(front, next))?;
    let code = one_statement(alloc, KStmt::If(here, there, Items::new(alloc)))?;
    Ok(code)
}

/// Code that starts a cursor over all coordinates, whose front stands in a variable, where the flag isn't 0, and else one that has
/// ended. Refused for want of memory alone.
pub fn start_range(alloc: Global, front: u64, flag: KExpr) -> Result<Items<KStmt>, AllocError>
    ensures { IfOk result (StartsRange front flag) }
{
    let code = range_start(alloc, front, flag)?;
    Ok(code)
}

/// Code that steps past the coordinate in variable `x`. Refused for want of memory alone.
pub fn step_range(alloc: Global, front: u64, x: u64) -> Result<Items<KStmt>, AllocError>
    requires { x < front }
    ensures { IfOk result (StepsRange front x) }
{
    let code = range_step(alloc, front, x)?;
    Ok(code)
}
