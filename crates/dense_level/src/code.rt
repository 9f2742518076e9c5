ghost use Rattle.std.specs.Prelude.{◌≡◌, ◌≤◌, ◌^◌, IfOk};
ghost use Rattle.dense_level.specs.Code.{size_word, times_size, place_word, locate_code};

use kernel_code::{Arr, KExpr, KStmt, Op, binary, copy_expr, one_statement, word_at};
use level_core::{leave_one, leave_two};
use std::alloc::{AllocError, Global};
use trees::Items;

/// The level's size. Refused for want of memory alone.
pub(crate) fn size_word(alloc: Global, tensor: u64, level: u64) -> Result<KExpr, AllocError>
    ensures { IfOk result (λ e. e ≡ size_word tensor level) }
{
    word_at(alloc, Arr::Dimension(tensor, level), KExpr::Num(0))
}

/// So many times the level's size. Refused for want of memory alone.
pub(crate) fn times_size(
    alloc: Global,
    tensor: u64,
    level: u64,
    count: KExpr,
) -> Result<KExpr, AllocError>
    ensures { IfOk result (λ e. e ≡ times_size tensor level count) }
{
    let size = size_word(alloc, tensor, level)?;
    binary(alloc, Op::Mul, count, size)
}

/// The position of a coordinate below a parent. Refused for want of memory alone.
pub(crate) fn place_word(
    alloc: Global,
    tensor: u64,
    level: u64,
    parent: KExpr,
    x: KExpr,
) -> Result<KExpr, AllocError>
    ensures { IfOk result (λ e. e ≡ place_word tensor level parent x) }
{
    let first = times_size(alloc, tensor, level, parent)?;
    binary(alloc, Op::Add, first, x)
}

/// Code that leaves the position of a coordinate that is below the size, and else none. Refused for want of
/// memory alone.
pub(crate) fn locate_code(
    alloc: Global,
    tensor: u64,
    level: u64,
    parent: KExpr,
    x: KExpr,
    free: u64,
) -> Result<Items<KStmt>, AllocError>
    requires { free ≤ 2 ^ 63 }
    ensures { IfOk result (λ code. code ≡ locate_code tensor level parent x free) }
{
    let size = size_word(alloc, tensor, level)?;
    let coordinate = copy_expr(alloc, &x)?;
    let test = binary(alloc, Op::Less, coordinate, size)?;
    let place = place_word(alloc, tensor, level, parent, x)?;
    let found = leave_two(alloc, free, KExpr::Num(1), place)?;
    let missing = leave_one(alloc, free, KExpr::Num(0))?;
    let code = one_statement(alloc, KStmt::If(test, found, missing))?;
    Ok(code)
}
