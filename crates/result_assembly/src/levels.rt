ghost use Rattle.std.specs.Prelude.{◌≡◌, ◌≤◌, ◌<◌, ◌+◌, ◌^◌, true, IfOk};
ghost use Rattle.kernel_code.specs.Keeps.{Below};
ghost use Rattle.kernel_code.specs.declared.syntax.Arr.{Arr};
ghost use Rattle.kernel_code.specs.declared.syntax.KExpr.{KExpr};
ghost use Rattle.kernel_code.specs.declared.syntax.KStmt.{KStmt};
ghost use Rattle.level_core.specs.GuardedProducts.{guarded_product};
ghost use Rattle.level_core.specs.Kinds.{properties, capabilities};
ghost use Rattle.tensor_storage.specs.Levels.{meaning};
ghost use Rattle.result_assembly.specs.Drained.{DrainsOf, IsCounted};
ghost use Rattle.result_assembly.specs.Tests.{guard_code};

use crate::tests_of_rows::begins_by_keys;
use kernel_code::{Arr, KExpr, KStmt, Op, binary, copy_expr, one_statement, word_at};
use level_core::{Letter, caps_of, guarded_product, props_of};
use level_rows::{DrainSite, emit_append_rows, emit_greatest_below, emit_insert_rows};
use limits::greatest_positions;
use std::alloc::{AllocError, Global};
use tensor_storage::{StorageLevel, kind_of};
use trees::{Boxed, Items};

/// Where the rows of a level are gone over whose number of positions stands in the variable `at.base`: their variables stand above it.
pub(crate) fn rows_site(at: DrainSite) -> DrainSite
    requires { at.base ≤ 2 ^ 61 }
    ensures { result ≡ record { level = at.level; base = at.base + 1; workspace = at.workspace; list = at.list } }
{
    DrainSite {
        level: at.level,
        base: at.base + 1,
        workspace: at.workspace,
        list: at.list,
    }
}

/// Code that refuses a number of positions in a variable that passes the limit. Refused for want of memory alone.
fn guard(alloc: Global, base: u64) -> Result<Items<KStmt>, AllocError>
    ensures { IfOk result (λ code. code ≡ guard_code base) }
{
    let limit = KExpr::Num(greatest_positions());
    let above = binary(alloc, Op::Less, limit, KExpr::Var(base))?;
    let growth = KStmt::Extend(Arr::Values(0), KExpr::Var(base), KExpr::Num(0));
    let grow = one_statement(alloc, growth)?;
    let code = one_statement(alloc, KStmt::If(above, grow, Items::new(alloc)))?;
    Ok(code)
}

/// The code of a level that is appended to. Refused for want of memory alone.
fn drain_appended(
    alloc: Global,
    level: &StorageLevel,
    at: DrainSite,
    through: u64,
    parents: KExpr,
) -> Result<Items<KStmt>, AllocError>
    requires append { (capabilities (meaning.kind level.now)).append ≡ true }
    requires room { at.base ≤ 2 ^ 61 }
    requires number { 0 < at.level }
    requires parents { Below at.base parents }
    ensures { IfOk result (DrainsOf (meaning.kind level.now) at.level through at.workspace at.list at.base parents) }
{
    let rows = rows_site(at);
    let first = begins_by_keys(alloc, rows, through)?;
    let key = Arr::Key(at.workspace, at.level - 1);
    let coord = word_at(alloc, key, KExpr::Var(rows.base))?;
    let mut code = emit_append_rows(alloc, level, rows, parents, first, coord)?;
    code.push(KStmt::Set(at.base, KExpr::Var(rows.base + 1)))?;
    Ok(code)
}

/// The number of positions of a level whose coordinates are counted: as many for each parent as a block is wide, or a number that
/// passes the limit where they do. Refused for want of memory alone.
pub(crate) fn block_positions(
    alloc: Global,
    base: u64,
    parents: &KExpr,
    most: u64,
) -> Result<KStmt, AllocError>
    ensures { IfOk result (λ code. code ≡ KStmt.Set base (guarded_product parents.now (KExpr.Width (KExpr.Var most)))) }
{
    let width = KExpr::Width(Boxed::new(alloc, KExpr::Var(most))?);
    let parents = copy_expr(alloc, parents)?;
    let total = guarded_product(alloc, parents, width)?;
    Ok(KStmt::Set(base, total))
}

/// The code of a level that coordinates are inserted into and that stores them: the greatest number of positions below one parent is
/// found first. Refused for want of memory alone.
fn drain_counted(
    alloc: Global,
    level: &StorageLevel,
    at: DrainSite,
    through: u64,
    parents: KExpr,
) -> Result<Items<KStmt>, AllocError>
    requires counted { IsCounted (meaning.kind level.now) }
    requires room { at.base ≤ 2 ^ 61 }
    requires number { 0 < at.level }
    requires parents { Below at.base parents }
    ensures { IfOk result (DrainsOf (meaning.kind level.now) at.level through at.workspace at.list at.base parents) }
{
    let rows = rows_site(at);
    let first = begins_by_keys(alloc, rows, through)?;
    let mut code = emit_greatest_below(alloc, rows, first)?;
    let total = block_positions(alloc, at.base, &parents, rows.base + 2)?;
    code.push(total)?;
    let again = begins_by_keys(alloc, rows, through)?;
    let key = Arr::Key(at.workspace, at.level - 1);
    let coord = word_at(alloc, key, KExpr::Var(rows.base))?;
    let most = KExpr::Var(rows.base + 2);
    let insert = emit_insert_rows(alloc, level, rows, parents, most, again, coord)?;
    code.append(insert)?;
    Ok(code)
}

/// The number of positions of a full level: as many for each parent as its range, or a number that passes the limit where they do.
/// Refused for want of memory alone.
fn full_positions(
    alloc: Global,
    base: u64,
    parents: &KExpr,
    level: u64,
) -> Result<KStmt, AllocError>
    ensures { IfOk result (λ code. code
        ≡ KStmt.Set base (guarded_product parents.now (KExpr.At (Arr.Dimension 0 level) (KExpr.Num 0)))) }
{
    let size = word_at(alloc, Arr::Dimension(0, level), KExpr::Num(0))?;
    let parents = copy_expr(alloc, parents)?;
    let total = guarded_product(alloc, parents, size)?;
    Ok(KStmt::Set(base, total))
}

/// The code of a full level: nothing is stored. Refused for want of memory alone.
fn drain_full(
    alloc: Global,
    level: &StorageLevel,
    at: DrainSite,
    through: u64,
    parents: KExpr,
) -> Result<Items<KStmt>, AllocError>
    requires full { (properties (meaning.kind level.now)).full ≡ true }
    requires room { at.base ≤ 2 ^ 61 }
    requires number { 0 < at.level }
    requires parents { Below at.base parents }
    ensures { IfOk result (DrainsOf (meaning.kind level.now) at.level through at.workspace at.list at.base parents) }
{
    let rows = rows_site(at);
    let total = full_positions(alloc, at.base, &parents, at.level)?;
    let mut code = one_statement(alloc, total)?;
    let refuse = guard(alloc, at.base)?;
    code.append(refuse)?;
    let first = begins_by_keys(alloc, rows, through)?;
    let key = Arr::Key(at.workspace, at.level - 1);
    let coord = word_at(alloc, key, KExpr::Var(rows.base))?;
    let insert = emit_insert_rows(alloc, level, rows, parents, KExpr::Num(0), first, coord)?;
    code.append(insert)?;
    Ok(code)
}

/// Code that fills one level of a kernel's result, of any kind, from the rows of a workspace: `at.level` is its number, counted from 1,
/// its chain ends with the level numbered `through`, `parents` tells how many positions the level above has, and the number of its own
/// positions is left in the variable `at.base`; those above are its own. Refused for want of memory alone.
pub fn drain_level(
    alloc: Global,
    letter: Letter,
    at: DrainSite,
    through: u64,
    parents: KExpr,
) -> Result<Items<KStmt>, AllocError>
    requires room { at.base ≤ 2 ^ 61 }
    requires number { 0 < at.level }
    requires parents { Below at.base parents }
    ensures { IfOk result (DrainsOf letter at.level through at.workspace at.list at.base parents) }
{
    let level = kind_of(alloc, letter)?;
    if caps_of(letter).append {
        return drain_appended(alloc, &level, at, through, parents);
    }
    if props_of(letter).full {
        return drain_full(alloc, &level, at, through, parents);
    }
    drain_counted(alloc, &level, at, through, parents)
}
