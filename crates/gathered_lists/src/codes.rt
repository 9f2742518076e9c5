//! The code that fills a scratch list, of the parts that a level's kind gives.
ghost use Rattle.std.specs.Prelude.{◌≡◌, ◌≤◌, ◌^◌, IfOk};
ghost use Rattle.gathered_lists.specs.Gathered.{clear_code, push_code, fill_code, gather_code};

use kernel_code::{Arr, KExpr, KStmt, LoopKind, Op, binary, one_statement};
use std::alloc::{AllocError, Global};
use trees::Items;

/// Leaves the list without rows.
fn clear(alloc: Global, list: u64) -> Result<Items<KStmt>, AllocError>
    ensures { IfOk result (λ code. code ≡ clear_code list) }
{
    let none = KStmt::Cut(Arr::ListCoordinates(list), KExpr::Num(0));
    let mut code = one_statement(alloc, none)?;
    code.push(KStmt::Cut(Arr::ListPositions(list), KExpr::Num(0)))?;
    Ok(code)
}

/// Pushes the entry at a position, whose coordinate was asked, if it has one, and goes on to the next.
fn push(alloc: Global, list: u64, top: u64) -> Result<Items<KStmt>, AllocError>
    requires { top ≤ 2 ^ 62 }
    ensures { IfOk result (λ code. code ≡ push_code list top) }
{
    let row = KStmt::Push(Arr::ListCoordinates(list), KExpr::Var(top + 2 + 1));
    let mut there = one_statement(alloc, row)?;
    there.push(KStmt::Push(Arr::ListPositions(list), KExpr::Var(top)))?;
    let next = binary(alloc, Op::Add, KExpr::Var(top), KExpr::Num(1))?;
    let test = KExpr::Var(top + 2);
    let mut code = one_statement(alloc, KStmt::If(test, there, Items::new(alloc)))?;
    code.push(KStmt::Set(top, next))?;
    Ok(code)
}

/// Fills the list with the entries of a segment whose ends are left, by the code of a coordinate, and sorts it.
fn fill(alloc: Global, list: u64, top: u64, coord: Items<KStmt>) -> Result<Items<KStmt>, AllocError>
    requires { top ≤ 2 ^ 62 }
    ensures { IfOk result (λ code. code ≡ fill_code list top coord) }
{
    let left = binary(alloc, Op::Less, KExpr::Var(top), KExpr::Var(top + 1))?;
    let pushed = push(alloc, list, top)?;
    let mut turn = coord;
    turn.append(pushed)?;
    let mut code = clear(alloc, list)?;
    code.push(KStmt::While(LoopKind::Gather, left, turn))?;
    code.push(KStmt::Sort(list))?;
    Ok(code)
}

/// Fills the list where the flag isn't 0, by the code of a segment and of a coordinate, and else leaves it without rows.
pub(crate) fn gather(
    alloc: Global,
    list: u64,
    top: u64,
    flag: KExpr,
    segment: Items<KStmt>,
    coord: Items<KStmt>,
) -> Result<Items<KStmt>, AllocError>
    requires { top ≤ 2 ^ 62 }
    ensures { IfOk result (λ code. code ≡ gather_code list top flag segment coord) }
{
    let filled = fill(alloc, list, top, coord)?;
    let mut there = segment;
    there.append(filled)?;
    let none = clear(alloc, list)?;
    let code = one_statement(alloc, KStmt::If(flag, there, none))?;
    Ok(code)
}
