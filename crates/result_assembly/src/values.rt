ghost use Rattle.std.specs.Prelude.{◌≡◌, ◌≤◌, ◌+◌, ◌^◌, None, Some, IfOk};
ghost use Rattle.format_spec.specs.Formats.{letters_of, IsFormat};
ghost use Rattle.result_assembly.specs.Drained.{IsAboveLast};
ghost use Rattle.result_assembly.specs.Stored.{value_row_code, values_code, DrainsResult};

use crate::drains::drain_levels;
use crate::last::fill_last;
use format_spec::FormatLevel;
use kernel_code::{Arr, KExpr, KStmt, LoopKind, Op, binary, one_statement, word_at};
use level_core::props_of;
use level_rows::DrainSite;
use std::alloc::{AllocError, Global};
use tensor_storage::kind_of;
use trees::Items;

/// The code that stores the value of one row. Refused for want of memory alone.
fn value_of_row(
    alloc: Global,
    workspace: u64,
    list: u64,
    base: u64,
) -> Result<Items<KStmt>, AllocError>
    ensures { IfOk result (λ code. code ≡ value_row_code base workspace list) }
{
    let place = word_at(alloc, Arr::ListPositions(list), KExpr::Var(base))?;
    let value = word_at(alloc, Arr::Sums(workspace), KExpr::Var(base))?;
    let mut code = one_statement(alloc, KStmt::Put(Arr::Values(0), place, value))?;
    let next = binary(alloc, Op::Add, KExpr::Var(base), KExpr::Num(1))?;
    code.push(KStmt::Set(base, next))?;
    Ok(code)
}

/// The code that stores a zero for each of `count` positions, and then the value of each row at its own. Refused for want of memory
/// alone.
fn store_row_values(
    alloc: Global,
    workspace: u64,
    list: u64,
    base: u64,
    count: KExpr,
    zero: u64,
) -> Result<Items<KStmt>, AllocError>
    ensures { IfOk result (λ code. code ≡ values_code base workspace list count zero) }
{
    let body = value_of_row(alloc, workspace, list, base)?;
    let zeros = KStmt::Extend(Arr::Values(0), count, KExpr::Num(zero));
    let mut code = one_statement(alloc, zeros)?;
    code.push(KStmt::Set(base, KExpr::Num(0)))?;
    let rows = KExpr::Len(Arr::Sums(workspace));
    let more = binary(alloc, Op::Less, KExpr::Var(base), rows)?;
    code.push(KStmt::While(LoopKind::Drain, more, body))?;
    Ok(code)
}

/// How many levels stand above the last one, where that is gone over twice.
fn above_last(format: &[FormatLevel]) -> Option<usize>
    ensures { IsAboveLast (letters_of format.now) result }
{
    if format.is_empty() {
        return None;
    }
    let above = format.len() - 1;
    if props_of(format[above].letter).ordered {
        return None;
    }
    Some(above)
}

/// The code of a result whose last level, below so many others, has its coordinates counted and inserted. Refused for want of memory
/// alone.
fn fill_counted(
    alloc: Global,
    format: &[FormatLevel],
    above: usize,
    workspace: u64,
    list: u64,
    base: u64,
    zero: u64,
) -> Result<Items<KStmt>, AllocError>
    requires format { IsFormat format.now }
    requires last { IsAboveLast (letters_of format.now) (Some above) }
    requires room { base ≤ 2 ^ 60 }
    ensures { IfOk result (DrainsResult format.now workspace list base zero) }
{
    let mut code = drain_levels(alloc, format, above, workspace, list, base)?;
    let place = base + above as u64 + 1;
    let at = DrainSite {
        level: above as u64 + 1,
        base: place,
        workspace,
        list,
    };
    let level = kind_of(alloc, format[above].letter)?;
    let count = KExpr::Var(base + above as u64);
    let last = fill_last(alloc, &level, at, count, zero)?;
    code.append(last)?;
    Ok(code)
}

/// The code of a result whose last level is gone over once alone, or which has no level. Refused for want of memory alone.
fn fill_values(
    alloc: Global,
    format: &[FormatLevel],
    workspace: u64,
    list: u64,
    base: u64,
    zero: u64,
) -> Result<Items<KStmt>, AllocError>
    requires format { IsFormat format.now }
    requires last { IsAboveLast (letters_of format.now) None }
    requires room { base ≤ 2 ^ 60 }
    ensures { IfOk result (DrainsResult format.now workspace list base zero) }
{
    let mut code = drain_levels(alloc, format, format.len(), workspace, list, base)?;
    let last = base + format.len() as u64;
    let values = store_row_values(alloc, workspace, list, last + 1, KExpr::Var(last), zero)?;
    code.append(values)?;
    Ok(code)
}

/// Code that fills a kernel's result, of this format, from the rows of a workspace, which increase: all its levels and its values,
/// which are `zero` where no row is. Scratch list `list` has a zero for each row before. Variables from `base` on are its own. Refused
/// for want of memory alone.
pub fn drain_result(
    alloc: Global,
    format: &[FormatLevel],
    workspace: u64,
    list: u64,
    base: u64,
    zero: u64,
) -> Result<Items<KStmt>, AllocError>
    requires format { IsFormat format.now }
    requires room { base ≤ 2 ^ 60 }
    ensures { IfOk result (DrainsResult format.now workspace list base zero) }
{
    match above_last(format) {
        Some(above) => fill_counted(alloc, format, above, workspace, list, base, zero),
        None => fill_values(alloc, format, workspace, list, base, zero),
    }
}
