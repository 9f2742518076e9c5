//! The last level of a result where its coordinates are counted and inserted, filled together with the values: a row's value is stored as
//! its coordinate is inserted.
ghost use Rattle.std.specs.Prelude.{◌≡◌, ◌≤◌, ◌<◌, ◌+◌, ◌^◌, IfOk};
ghost use Rattle.kernel_code.specs.Keeps.{Below};
ghost use Rattle.tensor_storage.specs.Levels.{meaning};
ghost use Rattle.result_assembly.specs.Drained.{IsCounted};
ghost use Rattle.result_assembly.specs.Filling.{fill_row_code, fill_rows_code, FindsLast, FillsLast};
ghost use Rattle.result_assembly.specs.Tests.{begins_test};

use crate::levels::{block_positions, rows_site};
use crate::tests_of_rows::begins_by_keys;
use kernel_code::{Arr, KExpr, KStmt, LoopKind, Op, binary, one_statement, word_at};
use level_core::LevelKind;
use level_rows::{DrainSite, emit_greatest_below};
use std::alloc::{AllocError, Global};
use tensor_storage::StorageLevel;
use trees::Items;

/// The code of one row: its coordinate is inserted, and its value stored at its position. Refused for want of memory alone.
fn fill_row(alloc: Global, at: DrainSite, insert: Items<KStmt>) -> Result<Items<KStmt>, AllocError>
    requires { at.base ≤ 2 ^ 62 }
    ensures { IfOk result (λ code. code ≡ fill_row_code at.base at.workspace at.list insert) }
{
    let base = at.base;
    let place = KStmt::Put(
        Arr::ListPositions(at.list),
        KExpr::Var(base),
        KExpr::Var(base + 6),
    );
    let mut store = one_statement(alloc, place)?;
    let value = word_at(alloc, Arr::Sums(at.workspace), KExpr::Var(base))?;
    store.push(KStmt::Put(Arr::Values(0), KExpr::Var(base + 6), value))?;
    let next = binary(alloc, Op::Add, KExpr::Var(base), KExpr::Num(1))?;
    store.push(KStmt::Set(base, next))?;
    let parent = word_at(alloc, Arr::ListPositions(at.list), KExpr::Var(base))?;
    let mut code = one_statement(alloc, KStmt::Set(base + 4, parent))?;
    code.append(insert)?;
    code.append(store)?;
    Ok(code)
}

/// The code of all rows. Refused for want of memory alone.
fn fill_rows(alloc: Global, at: DrainSite, insert: Items<KStmt>) -> Result<Items<KStmt>, AllocError>
    requires { at.base ≤ 2 ^ 62 }
    ensures { IfOk result (λ code. code ≡ fill_rows_code at.base at.workspace at.list insert) }
{
    let body = fill_row(alloc, at, insert)?;
    let mut code = one_statement(alloc, KStmt::Set(at.base, KExpr::Num(0)))?;
    let rows = KExpr::Len(Arr::Sums(at.workspace));
    let more = binary(alloc, Op::Less, KExpr::Var(at.base), rows)?;
    code.push(KStmt::While(LoopKind::Drain, more, body))?;
    Ok(code)
}

/// Code that finds the greatest number of positions that the rows of the last level begin below one parent. Below the one parent above all
/// levels each row begins one, so that their number is known without going over them. Refused for want of memory alone.
fn greatest_of_last(alloc: Global, rows: DrainSite) -> Result<Items<KStmt>, AllocError>
    requires room { rows.base ≤ 2 ^ 62 }
    requires number { 0 < rows.level }
    ensures { IfOk result (FindsLast rows.base rows.workspace rows.list rows.level
        (begins_test rows.base rows.workspace rows.level)) }
{
    if rows.level == 1 {
        let many = KExpr::Len(Arr::Sums(rows.workspace));
        let code = one_statement(alloc, KStmt::Set(rows.base + 2, many))?;
        return Ok(code);
    }
    let first = begins_by_keys(alloc, rows, rows.level)?;
    let code = emit_greatest_below(alloc, rows, first)?;
    Ok(code)
}

/// Code that fills the last level of a kernel's result, whose coordinates are counted and inserted, and its values, `zero` where no row
/// is, from the rows of a workspace:
/// `at.level` is its number, counted from 1, `parents` tells how many positions the level above has, and the number of its own
/// positions is left in the variable `at.base`; those above are its own. Refused for want of memory alone.
pub fn fill_last(
    alloc: Global,
    level: &StorageLevel,
    at: DrainSite,
    parents: KExpr,
    zero: u64,
) -> Result<Items<KStmt>, AllocError>
    requires counted { IsCounted (meaning.kind level.now) }
    requires room { at.base ≤ 2 ^ 61 }
    requires number { 0 < at.level }
    requires parents { Below at.base parents }
    ensures { IfOk result (FillsLast zero at.level at.workspace at.list at.base parents) }
{
    let rows = rows_site(at);
    let mut code = greatest_of_last(alloc, rows)?;
    let total = block_positions(alloc, at.base, &parents, rows.base + 2)?;
    code.push(total)?;
    let key = Arr::Key(at.workspace, at.level - 1);
    let coord = word_at(alloc, key, KExpr::Var(rows.base))?;
    let place = [KExpr::Var(rows.base + 4), coord];
    let insert = level.frag_insert(alloc, 0, at.level, &place, rows.base + 6)?;
    let counts = [parents, KExpr::Var(rows.base + 2)];
    let prepare = level.frag_prepare(alloc, 0, at.level, &counts, rows.base + 6)?;
    let fill = fill_rows(alloc, rows, insert)?;
    code.append(prepare)?;
    code.push(KStmt::Extend(Arr::Values(0), KExpr::Var(at.base), KExpr::Num(zero)))?;
    code.append(fill)?;
    Ok(code)
}
