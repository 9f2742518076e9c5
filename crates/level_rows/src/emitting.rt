ghost use Rattle.std.specs.Prelude.{◌≡◌, ◌≤◌, ◌+◌, ◌^◌, IfOk};
ghost use Rattle.kernel_code.specs.Keeps.{Below};
ghost use Rattle.kernel_code.specs.declared.syntax.KExpr.{KExpr};
ghost use Rattle.level_rows.specs.Draining.{row_code, drain_code, DrainsRows};

use kernel_code::{
    Arr, KExpr, KStmt, LoopKind, Op, binary, copy_statements, one_statement, word_at,
};
use level_core::LevelKind;
use std::alloc::{AllocError, Global};
use trees::Items;

/// Where rows are drained: the number of the result's level, the first of the variables that the code takes, the workspace
/// whose rows they are, and the scratch list that has the position of each.
#[derive(Clone, Copy, Debug, PartialEq, Eq, Drop)]
pub struct DrainSite {
    pub level: u64,
    pub base: u64,
    pub workspace: u64,
    pub list: u64,
}

/// What the code of one row is made of: whether the row begins a position, and the level's code for that and for its parent's
/// positions.
fn row(
    alloc: Global,
    at: DrainSite,
    first: KExpr,
    append: Items<KStmt>,
    edges: &[KStmt],
) -> Result<Items<KStmt>, AllocError>
    requires { at.base ≤ 2 ^ 62 }
    ensures { IfOk result (λ code. code ≡ row_code at.base at.list first append edges.now) }
{
    let base = at.base;
    let parent = word_at(alloc, Arr::ListPositions(at.list), KExpr::Var(base))?;
    let mut code = one_statement(alloc, KStmt::Set(base + 4, parent))?;
    code.push(KStmt::Set(base + 5, first))?;
    let mut turn = copy_statements(alloc, edges)?;
    turn.push(KStmt::Set(base + 2, KExpr::Var(base + 1)))?;
    turn.push(KStmt::Set(base + 3, KExpr::Var(base + 4)))?;
    let other = binary(
        alloc,
        Op::NotEqual,
        KExpr::Var(base + 3),
        KExpr::Var(base + 4),
    )?;
    code.push(KStmt::If(other, turn, Items::new(alloc)))?;
    let mut begins = append;
    let more = binary(alloc, Op::Add, KExpr::Var(base + 1), KExpr::Num(1))?;
    begins.push(KStmt::Set(base + 1, more))?;
    code.push(KStmt::If(KExpr::Var(base + 5), begins, Items::new(alloc)))?;
    let place = binary(alloc, Op::Sub, KExpr::Var(base + 1), KExpr::Num(1))?;
    code.push(KStmt::Put(Arr::ListPositions(at.list), KExpr::Var(base), place))?;
    let next = binary(alloc, Op::Add, KExpr::Var(base), KExpr::Num(1))?;
    code.push(KStmt::Set(base, next))?;
    Ok(code)
}

/// The code of all rows.
fn drain(
    alloc: Global,
    at: DrainSite,
    first: KExpr,
    append: Items<KStmt>,
    edges: Items<KStmt>,
) -> Result<Items<KStmt>, AllocError>
    requires { at.base ≤ 2 ^ 62 }
    ensures { IfOk result (λ code. code ≡ drain_code at.base at.workspace at.list first append edges) }
{
    let base = at.base;
    let body = row(alloc, at, first, append, edges.as_slice())?;
    let mut code = one_statement(alloc, KStmt::Set(base, KExpr::Num(0)))?;
    code.push(KStmt::Set(base + 1, KExpr::Num(0)))?;
    code.push(KStmt::Set(base + 2, KExpr::Num(0)))?;
    code.push(KStmt::Set(base + 3, KExpr::Num(0)))?;
    let more = binary(
        alloc,
        Op::Less,
        KExpr::Var(base),
        KExpr::Len(Arr::Sums(at.workspace)),
    )?;
    code.push(KStmt::While(LoopKind::Drain, more, body))?;
    code.push(KStmt::If(KExpr::Var(base + 1), edges, Items::new(alloc)))?;
    Ok(code)
}

/// Code that appends the rows of a workspace to a level of the result, whose kind is this one's, below so many `parents`: `first`
/// tells of a row whether it begins a position, and `coord` its coordinate. Variables from `at.base` on are its own. Refused for want
/// of memory alone.
pub fn emit_append_rows<L: LevelKind>(
    alloc: Global,
    level: &L,
    at: DrainSite,
    parents: KExpr,
    first: KExpr,
    coord: KExpr,
) -> Result<Items<KStmt>, AllocError>
    requires room { at.base ≤ 2 ^ 62 }
    requires parents { Below (at.base + 6) parents }
    requires coord { Below (at.base + 6) coord }
    ensures { IfOk result (DrainsRows L.meaning (L.meaning.kind level.now) at.level at.base at.workspace at.list parents first coord) }
{
    let coords = [coord];
    let append = level.frag_append(alloc, 0, at.level, &coords, at.base + 6)?;
    let ends = [
        KExpr::Var(at.base + 3),
        KExpr::Var(at.base + 2),
        KExpr::Var(at.base + 1),
    ];
    let edges = level.frag_edges(alloc, 0, at.level, &ends, at.base + 6)?;
    let counts = [KExpr::Len(Arr::Sums(at.workspace)), parents];
    let mut code = level.frag_reserve(alloc, 0, at.level, &counts, at.base + 6)?;
    code.append(drain(alloc, at, first, append, edges)?)?;
    Ok(code)
}
