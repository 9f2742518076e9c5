//! The code of a cursor over a scratch list.
ghost use Rattle.std.specs.Prelude.{◌≡◌, ◌≤◌, ◌^◌, IfOk};
ghost use Rattle.gathered_lists.specs.ListCursors.{load_code, start_code, find_code, step_code};

use kernel_code::{Arr, KExpr, KStmt, Op, binary, one_statement, word_at};
use level_cursors::no_coordinate;
use std::alloc::{AllocError, Global};
use trees::Items;

/// Leaves the coordinate at the cursor's place as its front, or that it has ended.
fn load(alloc: Global, list: u64, base: u64) -> Result<Items<KStmt>, AllocError>
    requires { base ≤ 2 ^ 62 }
    ensures { IfOk result (λ code. code ≡ load_code list base) }
{
    let length = KExpr::Len(Arr::ListCoordinates(list));
    let left = binary(alloc, Op::Less, KExpr::Var(base + 1), length)?;
    let word = word_at(alloc, Arr::ListCoordinates(list), KExpr::Var(base + 1))?;
    let there = one_statement(alloc, KStmt::Set(base, word))?;
    let ended = one_statement(alloc, KStmt::Set(base, KExpr::Num(no_coordinate())))?;
    let code = one_statement(alloc, KStmt::If(left, there, ended))?;
    Ok(code)
}

/// Starts before the first row.
pub(crate) fn start(alloc: Global, list: u64, base: u64) -> Result<Items<KStmt>, AllocError>
    requires { base ≤ 2 ^ 62 }
    ensures { IfOk result (λ code. code ≡ start_code list base) }
{
    let loaded = load(alloc, list, base)?;
    let mut code = one_statement(alloc, KStmt::Set(base + 1, KExpr::Num(0)))?;
    code.append(loaded)?;
    Ok(code)
}

/// Leaves the child of the coordinate in `x`.
pub(crate) fn find(alloc: Global, list: u64, base: u64, x: u64) -> Result<Items<KStmt>, AllocError>
    requires { base ≤ 2 ^ 62 }
    ensures { IfOk result (λ code. code ≡ find_code list base x) }
{
    let here = binary(alloc, Op::Equal, KExpr::Var(base), KExpr::Var(x))?;
    let position = word_at(alloc, Arr::ListPositions(list), KExpr::Var(base + 1))?;
    let next = binary(alloc, Op::Add, KExpr::Var(base + 4 + 1), KExpr::Num(1))?;
    let mut there = one_statement(alloc, KStmt::Set(base + 4, KExpr::Num(1)))?;
    there.push(KStmt::Set(base + 4 + 1, position))?;
    there.push(KStmt::Set(base + 4 + 1 + 1, next))?;
    let none = one_statement(alloc, KStmt::Set(base + 4, KExpr::Num(0)))?;
    let code = one_statement(alloc, KStmt::If(here, there, none))?;
    Ok(code)
}

/// Steps past the coordinate in `x`.
pub(crate) fn step(alloc: Global, list: u64, base: u64, x: u64) -> Result<Items<KStmt>, AllocError>
    requires { base ≤ 2 ^ 62 }
    ensures { IfOk result (λ code. code ≡ step_code list base x) }
{
    let here = binary(alloc, Op::Equal, KExpr::Var(base), KExpr::Var(x))?;
    let next = binary(alloc, Op::Add, KExpr::Var(base + 1), KExpr::Num(1))?;
    let mut there = one_statement(alloc, KStmt::Set(base + 1, next))?;
    let loaded = load(alloc, list, base)?;
    there.append(loaded)?;
    let code = one_statement(alloc, KStmt::If(here, there, Items::new(alloc)))?;
    Ok(code)
}
