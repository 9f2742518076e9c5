ghost use Rattle.std.specs.Prelude.{◌≡◌, ◌≤◌, ◌+◌, ◌^◌, [], ◌∷◌, IfOk};
ghost use Rattle.kernel_code.specs.Keeps.{Below};
ghost use Rattle.kernel_code.specs.declared.syntax.KExpr.{KExpr};
ghost use Rattle.level_core.specs.Codes.{EdgesCode};
ghost use Rattle.level_appends.specs.Codes.{begin_code, turn_code, add_code, end_code, IsBeside};
ghost use Rattle.level_appends.specs.Codes.{BeginsCursor, ReservesParents, AppendsRow, EndsLevel};

use crate::site::AppendSite;
use kernel_code::{KExpr, KStmt, Op, binary, one_statement};
use level_core::LevelKind;
use std::alloc::{AllocError, Global};
use trees::Items;

/// Sets the cursor where no row is appended. Refused for want of memory alone.
fn begin(alloc: Global, base: u64) -> Result<Items<KStmt>, AllocError>
    requires { base ≤ 2 ^ 62 }
    ensures { IfOk result (λ code. code ≡ begin_code base) }
{
    let mut code = one_statement(alloc, KStmt::Set(base, KExpr::Num(0)))?;
    code.push(KStmt::Set(base + 1, KExpr::Num(0)))?;
    code.push(KStmt::Set(base + 2, KExpr::Num(0)))?;
    Ok(code)
}

/// Gives the last parent its positions where the row's is another. Refused for want of memory alone.
fn turn(
    alloc: Global,
    base: u64,
    parent: u64,
    edges: Items<KStmt>,
) -> Result<Items<KStmt>, AllocError>
    requires { base ≤ 2 ^ 62 }
    ensures { IfOk result (λ code. code ≡ turn_code base parent edges) }
{
    let other = binary(alloc, Op::NotEqual, KExpr::Var(base), KExpr::Var(parent))?;
    let mut turn = edges;
    turn.push(KStmt::Set(base + 1, KExpr::Var(base + 2)))?;
    turn.push(KStmt::Set(base, KExpr::Var(parent)))?;
    let code = one_statement(alloc, KStmt::If(other, turn, Items::new(alloc)))?;
    Ok(code)
}

/// Counts a coordinate behind the code that appends it. Refused for want of memory alone.
fn add(alloc: Global, base: u64, append: Items<KStmt>) -> Result<Items<KStmt>, AllocError>
    requires { base ≤ 2 ^ 62 }
    ensures { IfOk result (λ code. code ≡ add_code base append) }
{
    let mut code = append;
    let more = binary(alloc, Op::Add, KExpr::Var(base + 2), KExpr::Num(1))?;
    code.push(KStmt::Set(base + 2, more))?;
    Ok(code)
}

/// Gives the last parent its positions, if there are rows. Refused for want of memory alone.
fn end(alloc: Global, base: u64, edges: Items<KStmt>) -> Result<Items<KStmt>, AllocError>
    requires { base ≤ 2 ^ 62 }
    ensures { IfOk result (λ code. code ≡ end_code base edges) }
{
    let code = one_statement(
        alloc,
        KStmt::If(KExpr::Var(base + 2), edges, Items::new(alloc)),
    )?;
    Ok(code)
}

/// Code that gives a parent its positions: the last row's parent, those from where they begin to the last coordinate. Refused for want of
/// memory alone.
fn edges<L: LevelKind>(
    alloc: Global,
    level: &L,
    at: AppendSite,
    free: u64,
) -> Result<Items<KStmt>, AllocError>
    requires cursor { at.base + 3 ≤ free }
    requires room { free ≤ 2 ^ 62 }
    ensures { IfOk result (λ code. EdgesCode L.meaning (L.meaning.kind level.now) 0 at.level
        (KExpr.Var at.base ∷ KExpr.Var (at.base + 1) ∷ KExpr.Var (at.base + 2) ∷ []) free code) }
{
    let ends = [
        KExpr::Var(at.base),
        KExpr::Var(at.base + 1),
        KExpr::Var(at.base + 2),
    ];
    let code = level.frag_edges(alloc, 0, at.level, &ends, free)?;
    Ok(code)
}

/// Code before the first row: it sets the cursor of a level, whose variables stand from `base` on. Refused for want of memory alone.
pub fn begin_cursor(alloc: Global, base: u64) -> Result<Items<KStmt>, AllocError>
    requires { base ≤ 2 ^ 62 }
    ensures { IfOk result (BeginsCursor base) }
{
    let code = begin(alloc, base)?;
    Ok(code)
}

/// Code that reserves as many parents for a level as an expression tells, which are no fewer than were reserved and within the limit on
/// positions. Variables from `free` on are its own. Refused for want of memory alone.
pub fn reserve_parents<L: LevelKind>(
    alloc: Global,
    level: &L,
    at: AppendSite,
    parents: KExpr,
    free: u64,
) -> Result<Items<KStmt>, AllocError>
    requires cursor { at.base + 3 ≤ free }
    requires parents { Below free parents }
    requires room { free ≤ 2 ^ 62 }
    ensures { IfOk result (ReservesParents L.meaning (L.meaning.kind level.now) at.level at.base parents free) }
{
    let counts = [KExpr::Num(0), parents];
    let code = level.frag_reserve(alloc, 0, at.level, &counts, free)?;
    Ok(code)
}

/// Code that appends a row which begins a position: the position of the level above stands in the variable `parent`, the coordinate in
/// `coord`. The last parent is given its positions where the row has another. Variables from `free` on are its own. Refused for want of
/// memory alone.
pub fn append_row<L: LevelKind>(
    alloc: Global,
    level: &L,
    at: AppendSite,
    parent: u64,
    coord: u64,
    free: u64,
) -> Result<Items<KStmt>, AllocError>
    requires cursor { at.base + 3 ≤ free }
    requires parent { IsBeside at.base free parent }
    requires coord { IsBeside at.base free coord }
    requires room { free ≤ 2 ^ 62 }
    ensures { IfOk result (AppendsRow L.meaning (L.meaning.kind level.now) at.level at.base parent coord free) }
{
    let coords = [KExpr::Var(coord)];
    let append = level.frag_append(alloc, 0, at.level, &coords, free)?;
    let one = add(alloc, at.base, append)?;
    if level.props().branchless {
        return Ok(one);
    }
    let given = edges(alloc, level, at, free)?;
    let mut code = turn(alloc, at.base, parent, given)?;
    code.append(one)?;
    Ok(code)
}

/// Code behind the last row: it gives the last row's parent its positions. Variables from `free` on are its own. Refused for want of memory
/// alone.
pub fn end_level<L: LevelKind>(
    alloc: Global,
    level: &L,
    at: AppendSite,
    free: u64,
) -> Result<Items<KStmt>, AllocError>
    requires cursor { at.base + 3 ≤ free }
    requires room { free ≤ 2 ^ 62 }
    ensures { IfOk result (EndsLevel L.meaning (L.meaning.kind level.now) at.level at.base free) }
{
    if level.props().branchless {
        return Ok(Items::new(alloc));
    }
    let given = edges(alloc, level, at, free)?;
    let code = end(alloc, at.base, given)?;
    Ok(code)
}
