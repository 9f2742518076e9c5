ghost use Rattle.std.specs.Prelude.{◌≡◌, ◌≤◌, ◌+◌, ◌^◌, IfOk};
ghost use Rattle.kernel_code.specs.Keeps.{Below};
ghost use Rattle.level_rows.specs.Counting.{count_row_code, greatest_code, FindsGreatest};
ghost use Rattle.level_rows.specs.Placing.{insert_row_code, insert_rows_code, PlacesRows};

use crate::emitting::DrainSite;
use kernel_code::{Arr, KExpr, KStmt, LoopKind, Op, binary, one_statement, word_at};
use level_core::LevelKind;
use std::alloc::{AllocError, Global};
use trees::Items;

/// The code of one row: its coordinate is inserted if it begins a position.
fn insert_row_statements(
    alloc: Global,
    at: DrainSite,
    first: KExpr,
    insert: Items<KStmt>,
) -> Result<Items<KStmt>, AllocError>
    requires { at.base ≤ 2 ^ 62 }
    ensures { IfOk result (λ code. code ≡ insert_row_code at.base at.list first insert) }
{
    let base = at.base;
    let parent = word_at(alloc, Arr::ListPositions(at.list), KExpr::Var(base))?;
    let mut code = one_statement(alloc, KStmt::Set(base + 4, parent))?;
    code.push(KStmt::Set(base + 5, first))?;
    code.push(KStmt::Set(base + 3, KExpr::Var(base + 4)))?;
    let mut begins = insert;
    begins.push(KStmt::Set(base + 1, KExpr::Var(base + 6)))?;
    code.push(KStmt::If(KExpr::Var(base + 5), begins, Items::new(alloc)))?;
    code.push(KStmt::Put(
        Arr::ListPositions(at.list),
        KExpr::Var(base),
        KExpr::Var(base + 1),
    ))?;
    let next = binary(alloc, Op::Add, KExpr::Var(base), KExpr::Num(1))?;
    code.push(KStmt::Set(base, next))?;
    Ok(code)
}

/// The code of all rows.
fn insert_rows_statements(
    alloc: Global,
    at: DrainSite,
    first: KExpr,
    insert: Items<KStmt>,
) -> Result<Items<KStmt>, AllocError>
    requires { at.base ≤ 2 ^ 62 }
    ensures { IfOk result (λ code. code ≡ insert_rows_code at.base at.workspace at.list first insert) }
{
    let base = at.base;
    let body = insert_row_statements(alloc, at, first, insert)?;
    let mut code = one_statement(alloc, KStmt::Set(base, KExpr::Num(0)))?;
    code.push(KStmt::Set(base + 1, KExpr::Num(0)))?;
    code.push(KStmt::Set(base + 3, KExpr::Num(0)))?;
    let more = binary(
        alloc,
        Op::Less,
        KExpr::Var(base),
        KExpr::Len(Arr::Sums(at.workspace)),
    )?;
    code.push(KStmt::While(LoopKind::Drain, more, body))?;
    Ok(code)
}

/// Code that inserts the rows of a workspace into a level of the result, whose kind is this one's, below so many `parents` of at most
/// `most` positions each: `first` tells of a row whether it begins a position, and `coord` its coordinate. Variables from `at.base` on
/// are its own. Refused for want of memory alone.
pub fn emit_insert_rows<L: LevelKind>(
    alloc: Global,
    level: &L,
    at: DrainSite,
    parents: KExpr,
    most: KExpr,
    first: KExpr,
    coord: KExpr,
) -> Result<Items<KStmt>, AllocError>
    requires room { at.base ≤ 2 ^ 62 }
    requires parents { Below (at.base + 6) parents }
    requires most { Below (at.base + 6) most }
    requires coord { Below (at.base + 6) coord }
    ensures { IfOk result (PlacesRows L.meaning (L.meaning.kind level.now) at.level at.base at.workspace at.list parents most first coord) }
{
    let place = [KExpr::Var(at.base + 4), coord];
    let insert = level.frag_insert(alloc, 0, at.level, &place, at.base + 6)?;
    let counts = [parents, most];
    let mut code = level.frag_prepare(alloc, 0, at.level, &counts, at.base + 6)?;
    code.append(insert_rows_statements(alloc, at, first, insert)?)?;
    Ok(code)
}

/// The code of one row: a row that begins a position is counted below its parent, and the greatest number is kept.
fn count_row_statements(
    alloc: Global,
    at: DrainSite,
    first: KExpr,
) -> Result<Items<KStmt>, AllocError>
    requires { at.base ≤ 2 ^ 62 }
    ensures { IfOk result (λ code. code ≡ count_row_code at.base at.list first) }
{
    let base = at.base;
    let parent = word_at(alloc, Arr::ListPositions(at.list), KExpr::Var(base))?;
    let mut code = one_statement(alloc, KStmt::Set(base + 4, parent))?;
    code.push(KStmt::Set(base + 5, first))?;
    let other = binary(
        alloc,
        Op::NotEqual,
        KExpr::Var(base + 3),
        KExpr::Var(base + 4),
    )?;
    let start = one_statement(alloc, KStmt::Set(base + 1, KExpr::Num(0)))?;
    code.push(KStmt::If(other, start, Items::new(alloc)))?;
    code.push(KStmt::Set(base + 3, KExpr::Var(base + 4)))?;
    let more = binary(alloc, Op::Add, KExpr::Var(base + 1), KExpr::Num(1))?;
    let one = one_statement(alloc, KStmt::Set(base + 1, more))?;
    code.push(KStmt::If(KExpr::Var(base + 5), one, Items::new(alloc)))?;
    let less = binary(alloc, Op::Less, KExpr::Var(base + 2), KExpr::Var(base + 1))?;
    let keep = one_statement(alloc, KStmt::Set(base + 2, KExpr::Var(base + 1)))?;
    code.push(KStmt::If(less, keep, Items::new(alloc)))?;
    let next = binary(alloc, Op::Add, KExpr::Var(base), KExpr::Num(1))?;
    code.push(KStmt::Set(base, next))?;
    Ok(code)
}

/// The code of all rows.
fn greatest_statements(
    alloc: Global,
    at: DrainSite,
    first: KExpr,
) -> Result<Items<KStmt>, AllocError>
    requires { at.base ≤ 2 ^ 62 }
    ensures { IfOk result (λ code. code ≡ greatest_code at.base at.workspace at.list first) }
{
    let base = at.base;
    let body = count_row_statements(alloc, at, first)?;
    let mut code = one_statement(alloc, KStmt::Set(base, KExpr::Num(0)))?;
    code.push(KStmt::Set(base + 1, KExpr::Num(0)))?;
    code.push(KStmt::Set(base + 2, KExpr::Num(0)))?;
    code.push(KStmt::Set(base + 3, KExpr::Num(0)))?;
    let more = binary(
        alloc,
        Op::Less,
        KExpr::Var(base),
        KExpr::Len(Arr::Sums(at.workspace)),
    )?;
    code.push(KStmt::While(LoopKind::Drain, more, body))?;
    Ok(code)
}

/// Code that finds the greatest number of positions that the rows of a workspace begin below one parent, and leaves it in the
/// variable `at.base + 2`: `first` tells of a row whether it begins a position. Refused for want of memory alone.
pub fn emit_greatest_below(
    alloc: Global,
    at: DrainSite,
    first: KExpr,
) -> Result<Items<KStmt>, AllocError>
    requires { at.base ≤ 2 ^ 62 }
    ensures { IfOk result (FindsGreatest at.base at.workspace at.list at.level first) }
{
    let code = greatest_statements(alloc, at, first)?;
    Ok(code)
}
