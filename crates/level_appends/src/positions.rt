//! The positions of a full level, which stores nothing.
ghost use Rattle.std.specs.Prelude.{◌≡◌, ◌<◌, IfOk};
ghost use Rattle.kernel_code.specs.Keeps.{Below};
ghost use Rattle.level_appends.specs.Positions.{refuse_code, count_code, CountsPositions};

use kernel_code::{Arr, KExpr, KStmt, Op, binary, one_statement, word_at};
use level_core::guarded_product;
use limits::greatest_positions;
use std::alloc::{AllocError, Global};
use trees::Items;

/// Code that refuses a number of positions in a variable that passes the limit, as a growth of the values to it. Refused for want of
/// memory alone.
fn refuse(alloc: Global, total: u64) -> Result<Items<KStmt>, AllocError>
    ensures { IfOk result (λ code. code ≡ refuse_code total) }
{
    let limit = KExpr::Num(greatest_positions());
    let above = binary(alloc, Op::Less, limit, KExpr::Var(total))?;
    let more = binary(
        alloc,
        Op::Sub,
        KExpr::Var(total),
        KExpr::Len(Arr::Values(0)),
    )?;
    let growth = KStmt::Extend(Arr::Values(0), more, KExpr::Num(0));
    let grow = one_statement(alloc, growth)?;
    let code = one_statement(alloc, KStmt::If(above, grow, Items::new(alloc)))?;
    Ok(code)
}

/// Code that sets the variable `total` to the number of positions of the full level numbered `level`, counted from 1: as many for each
/// parent as its range. A growth of the values to the number is refused in the level's place where it passes the limit. Refused for want of
/// memory alone.
pub fn count_positions(
    alloc: Global,
    level: u64,
    parents: KExpr,
    total: u64,
) -> Result<Items<KStmt>, AllocError>
    ensures { IfOk result (CountsPositions level total parents) }
{
    let size = word_at(alloc, Arr::Dimension(0, level), KExpr::Num(0))?;
    let count = guarded_product(alloc, parents, size)?;
    let mut code = one_statement(alloc, KStmt::Set(total, count))?;
    code.append(refuse(alloc, total)?)?;
    Ok(code)
}
