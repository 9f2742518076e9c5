//! The sums of a workspace's rows are brought together in its list.
ghost use Rattle.std.specs.Prelude.{◌≡◌, ◌+◌, ◌≤◌, ◌^◌, IfOk};
ghost use Rattle.touched_kernels.specs.Sums.{join_code, sum_code, SumsTouched};

use kernel_code::{KExpr, KStmt, LoopKind, Op, binary, one_statement};
use std::alloc::{AllocError, Global};
use touched_workspaces::{TouchedSink, rows_wait, take_next};
use trees::Items;

/// The code of one turn. Refused for want of memory alone.
fn join_code(alloc: Global, at: u64, take: Items<KStmt>) -> Result<Items<KStmt>, AllocError>
    ensures { IfOk result (λ code. code ≡ join_code at take) }
{
    let next = binary(alloc, Op::Add, KExpr::Var(at), KExpr::Num(1))?;
    let mut code = take;
    code.push(KStmt::Set(at, next))?;
    Ok(code)
}

/// The list is sorted, and the loop goes over it. Refused for want of memory alone.
fn sum_code(
    alloc: Global,
    list: u64,
    at: u64,
    test: KExpr,
    turn: Items<KStmt>,
) -> Result<Items<KStmt>, AllocError>
    ensures { IfOk result (λ code. code ≡ sum_code list at test turn) }
{
    let mut code = one_statement(alloc, KStmt::SortSum(list))?;
    code.push(KStmt::Set(at, KExpr::Num(0)))?;
    code.push(KStmt::While(LoopKind::Drain, test, turn))?;
    Ok(code)
}

/// Code behind which the list of a workspace of one key has the sums of the rows that were added, by coordinates, in increasing order, as a
/// workspace of pairs has them once it is sorted. It takes a drain turn for each of them. Variables from `at` on are its own. Refused for
/// want of memory alone.
pub fn sum_touched(alloc: Global, sink: TouchedSink, at: u64) -> Result<Items<KStmt>, AllocError>
    requires { at ≤ 2 ^ 62 }
    ensures { IfOk result (SumsTouched sink at) }
{
    let take = take_next(alloc, sink, at, at + 1)?;
    let turn = join_code(alloc, at, take)?;
    let test = rows_wait(alloc, sink, at)?;
    let code = sum_code(alloc, sink.list, at, test, turn)?;
    Ok(code)
}
