//! Code that drains a workspace into a sink.
ghost use Rattle.std.specs.Prelude.{◌≡◌, ◌+◌, ◌<◌, ◌≤◌, ◌^◌, ◌++◌, length, All, IfOk};
ghost use Rattle.std.specs.List.{range_with_len};
ghost use Rattle.drained_workspaces.specs.Drained.{DrainsInto, turn_code, drain_code};

use crate::workspace::DrainedWorkspace;
use kernel_code::{KExpr, KStmt, LoopKind, Op, binary, one_statement};
use result_targets::RowSink;
use std::alloc::{AllocError, Global};
use trees::Items;

/// Variables, and behind them so many from `first` on. Refused for want of memory alone.
fn with_more(
    alloc: Global,
    variables: &[u64],
    first: u64,
    count: u64,
) -> Result<Items<u64>, AllocError>
    requires { first + count ≤ 2 ^ 62 }
    ensures { IfOk result (λ list. list ≡ variables.now ++ range_with_len first count) }
{
    let mut list = Items::from_slice(alloc, variables)?;
    for n in 0..count {
        list.push(first + n)?;
    }
    Ok(list)
}

/// The code of one turn. Refused for want of memory alone.
fn turn_code(
    alloc: Global,
    at: u64,
    take: Items<KStmt>,
    add: Items<KStmt>,
) -> Result<Items<KStmt>, AllocError>
    ensures { IfOk result (λ code. code ≡ turn_code at take add) }
{
    let next = binary(alloc, Op::Add, KExpr::Var(at), KExpr::Num(1))?;
    let mut rest = add;
    rest.push(KStmt::Set(at, next))?;
    let mut code = take;
    code.append(rest)?;
    Ok(code)
}

/// The loop, between the code that sorts and the code that empties. Refused for want of memory alone.
fn drain_code(
    alloc: Global,
    at: u64,
    test: KExpr,
    sort: Items<KStmt>,
    turn: Items<KStmt>,
    empty: Items<KStmt>,
) -> Result<Items<KStmt>, AllocError>
    ensures { IfOk result (λ code. code ≡ drain_code at test sort turn empty) }
{
    let mut rest = one_statement(alloc, KStmt::Set(at, KExpr::Num(0)))?;
    rest.push(KStmt::While(LoopKind::Drain, test, turn))?;
    rest.append(empty)?;
    let mut code = sort;
    code.append(rest)?;
    Ok(code)
}

/// Code that drains a workspace into a sink: its rows are sorted and summed, each of the sums is added to the sink, with the coordinates
/// that stand in the variables `head` before its own, and the workspace is emptied. Variables from `free` on are its own. Refused for want
/// of memory alone.
pub fn drain_into<W: DrainedWorkspace, K: RowSink>(
    alloc: Global,
    workspace: &W,
    outer: &K,
    head: &[u64],
    free: u64,
) -> Result<Items<KStmt>, AllocError>
    requires many { length head.now + W.sink.keys workspace.now ≡ K.sink.keys outer.now }
    requires head { All (λ y. y < free) head.now }
    requires room { free + W.sink.keys workspace.now + 2 ≤ 2 ^ 62 }
    ensures { IfOk result (DrainsInto K.sink outer.now W.sink W.draining workspace.now head.now free) }
{
    let count = workspace.keys();
    let first = free + 1;
    let value = first + count;
    let sort = workspace.sort(alloc)?;
    let test = workspace.rows_wait(alloc, free)?;
    let take = workspace.take_row(alloc, free, first)?;
    let keys = with_more(alloc, head, first, count)?;
    let add = outer.add_row(alloc, keys.as_slice(), value, value + 1)?;
    let empty = workspace.empty(alloc)?;
    let turn = turn_code(alloc, free, take, add)?;
    let code = drain_code(alloc, free, test, sort, turn, empty)?;
    Ok(code)
}
