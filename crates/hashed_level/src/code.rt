ghost use Rattle.std.specs.Prelude.{◌≡◌, ◌≤◌, ◌^◌, IfOk};
ghost use Rattle.hashed_level.specs.Code.{width_word, base_word, wrapped_word, slot_word, filled_test, other_test, more_test};
ghost use Rattle.hashed_level.specs.Code.{search_test, search_step, search_code, found_test, found_code, locate_code, insert_code};
ghost use Rattle.hashed_level.specs.Code.{coord_code, prepare_code};

use crate::slots::empty_slot;
use kernel_code::{Arr, KExpr, KStmt, LoopKind, Op, binary, copy_expr, one_statement, word_at};
use level_core::{guarded_product, leave_one, leave_two};
use std::alloc::{AllocError, Global};
use trees::{Boxed, Items};

// Each of these is refused for want of memory alone.

fn width_word(alloc: Global, tensor: u64, level: u64) -> Result<KExpr, AllocError>
    ensures { IfOk result (λ e. e ≡ width_word tensor level) }
{
    word_at(alloc, Arr::Width(tensor, level), KExpr::Num(0))
}

/// Where a parent's block begins.
pub(crate) fn base_word(
    alloc: Global,
    tensor: u64,
    level: u64,
    parent: KExpr,
) -> Result<KExpr, AllocError>
    ensures { IfOk result (λ e. e ≡ base_word tensor level parent) }
{
    let width = width_word(alloc, tensor, level)?;
    binary(alloc, Op::Mul, parent, width)
}

fn wrapped_word(alloc: Global, tensor: u64, level: u64, e: KExpr) -> Result<KExpr, AllocError>
    ensures { IfOk result (λ r. r ≡ wrapped_word tensor level e) }
{
    let width = width_word(alloc, tensor, level)?;
    let mask = binary(alloc, Op::Sub, width, KExpr::Num(1))?;
    binary(alloc, Op::BitAnd, e, mask)
}

fn slot_word(alloc: Global, free: u64) -> Result<KExpr, AllocError>
    requires { free ≤ 2 ^ 63 }
    ensures { IfOk result (λ e. e ≡ slot_word free) }
{
    binary(alloc, Op::Add, KExpr::Var(free), KExpr::Var(free + 1))
}

fn filled_test(alloc: Global, tensor: u64, level: u64, slot: KExpr) -> Result<KExpr, AllocError>
    ensures { IfOk result (λ e. e ≡ filled_test tensor level slot) }
{
    let word = word_at(alloc, Arr::Coordinates(tensor, level), slot)?;
    let empty = empty_slot();
    binary(alloc, Op::NotEqual, word, KExpr::Num(empty))
}

fn other_test(
    alloc: Global,
    tensor: u64,
    level: u64,
    slot: KExpr,
    x: KExpr,
) -> Result<KExpr, AllocError>
    ensures { IfOk result (λ e. e ≡ other_test tensor level slot x) }
{
    let word = word_at(alloc, Arr::Coordinates(tensor, level), slot)?;
    binary(alloc, Op::NotEqual, word, x)
}

fn more_test(alloc: Global, tensor: u64, level: u64, free: u64) -> Result<KExpr, AllocError>
    requires { free ≤ 2 ^ 63 }
    ensures { IfOk result (λ e. e ≡ more_test tensor level free) }
{
    let width = width_word(alloc, tensor, level)?;
    binary(alloc, Op::Less, KExpr::Var(free + 2), width)
}

fn search_test(
    alloc: Global,
    tensor: u64,
    level: u64,
    x: KExpr,
    free: u64,
) -> Result<KExpr, AllocError>
    requires { free ≤ 2 ^ 63 }
    ensures { IfOk result (λ e. e ≡ search_test tensor level x free) }
{
    let more = more_test(alloc, tensor, level, free)?;
    let slot = slot_word(alloc, free)?;
    let again = slot_word(alloc, free)?;
    let filled = filled_test(alloc, tensor, level, slot)?;
    let other = other_test(alloc, tensor, level, again, x)?;
    let goes = binary(alloc, Op::And, filled, other)?;
    binary(alloc, Op::And, more, goes)
}

fn search_step(
    alloc: Global,
    tensor: u64,
    level: u64,
    free: u64,
) -> Result<Items<KStmt>, AllocError>
    requires { free ≤ 2 ^ 63 }
    ensures { IfOk result (λ code. code ≡ search_step tensor level free) }
{
    let next = binary(alloc, Op::Add, KExpr::Var(free + 1), KExpr::Num(1))?;
    let next = wrapped_word(alloc, tensor, level, next)?;
    let steps = binary(alloc, Op::Add, KExpr::Var(free + 2), KExpr::Num(1))?;
    let mut code = one_statement(alloc, KStmt::Set(free + 1, next))?;
    code.push(KStmt::Set(free + 2, steps))?;
    Ok(code)
}

/// Code that seeks a coordinate below a parent.
fn search_code(
    alloc: Global,
    tensor: u64,
    level: u64,
    parent: KExpr,
    x: &KExpr,
    free: u64,
) -> Result<Items<KStmt>, AllocError>
    requires { free ≤ 2 ^ 63 }
    ensures { IfOk result (λ code. code ≡ search_code tensor level parent x.now free) }
{
    let base = base_word(alloc, tensor, level, parent)?;
    let first = copy_expr(alloc, x)?;
    let first = wrapped_word(alloc, tensor, level, first)?;
    let again = copy_expr(alloc, x)?;
    let test = search_test(alloc, tensor, level, again, free)?;
    let step = search_step(alloc, tensor, level, free)?;
    let mut code = one_statement(alloc, KStmt::Set(free, base))?;
    code.push(KStmt::Set(free + 1, first))?;
    code.push(KStmt::Set(free + 2, KExpr::Num(0)))?;
    code.push(KStmt::While(LoopKind::Probe, test, step))?;
    Ok(code)
}

/// Code that leaves the position of a coordinate below a parent, or none.
pub(crate) fn locate_code(
    alloc: Global,
    tensor: u64,
    level: u64,
    parent: KExpr,
    x: KExpr,
    free: u64,
) -> Result<Items<KStmt>, AllocError>
    requires { free ≤ 2 ^ 63 }
    ensures { IfOk result (λ code. code ≡ locate_code tensor level parent x free) }
{
    let mut code = search_code(alloc, tensor, level, parent, &x, free)?;
    let more = more_test(alloc, tensor, level, free)?;
    let slot = slot_word(alloc, free)?;
    let filled = filled_test(alloc, tensor, level, slot)?;
    let test = binary(alloc, Op::And, more, filled)?;
    let position = slot_word(alloc, free)?;
    let mut found = one_statement(alloc, KStmt::Set(free + 1, position))?;
    found.push(KStmt::Set(free, KExpr::Num(1)))?;
    let missing = leave_one(alloc, free, KExpr::Num(0))?;
    code.push(KStmt::If(test, found, missing))?;
    Ok(code)
}

/// Code that puts a coordinate into the first empty slot below a parent, and leaves that slot.
pub(crate) fn insert_code(
    alloc: Global,
    tensor: u64,
    level: u64,
    parent: KExpr,
    x: KExpr,
    free: u64,
) -> Result<Items<KStmt>, AllocError>
    requires { free ≤ 2 ^ 63 }
    ensures { IfOk result (λ code. code ≡ insert_code tensor level parent x free) }
{
    let mut code = search_code(alloc, tensor, level, parent, &x, free)?;
    let slot = slot_word(alloc, free)?;
    let answer = slot_word(alloc, free)?;
    code.push(KStmt::Put(Arr::Coordinates(tensor, level), slot, x))?;
    code.push(KStmt::Set(free, answer))?;
    Ok(code)
}

/// Code that leaves the coordinate in a slot, or none.
pub(crate) fn coord_code(
    alloc: Global,
    tensor: u64,
    level: u64,
    pos: KExpr,
    free: u64,
) -> Result<Items<KStmt>, AllocError>
    requires { free ≤ 2 ^ 63 }
    ensures { IfOk result (λ code. code ≡ coord_code tensor level pos free) }
{
    let again = copy_expr(alloc, &pos)?;
    let test = filled_test(alloc, tensor, level, again)?;
    let word = word_at(alloc, Arr::Coordinates(tensor, level), pos)?;
    let found = leave_two(alloc, free, KExpr::Num(1), word)?;
    let missing = leave_one(alloc, free, KExpr::Num(0))?;
    let code = one_statement(alloc, KStmt::If(test, found, missing))?;
    Ok(code)
}

/// Code that makes so many parents of at most so many coordinates each.
pub(crate) fn prepare_code(
    alloc: Global,
    tensor: u64,
    level: u64,
    parents: KExpr,
    most: KExpr,
    free: u64,
) -> Result<Items<KStmt>, AllocError>
    requires { free ≤ 2 ^ 63 }
    ensures { IfOk result (λ code. code ≡ prepare_code tensor level parents most free) }
{
    let width = KExpr::Width(Boxed::new(alloc, most)?);
    let count = guarded_product(alloc, parents, KExpr::Var(free))?;
    let empty = empty_slot();
    let mut code = one_statement(alloc, KStmt::Set(free, width))?;
    code.push(KStmt::Set(free + 1, count))?;
    let slots = Arr::Coordinates(tensor, level);
    code.push(KStmt::Extend(slots, KExpr::Var(free + 1), KExpr::Num(empty)))?;
    let widths = Arr::Width(tensor, level);
    code.push(KStmt::Extend(widths, KExpr::Num(1), KExpr::Var(free)))?;
    Ok(code)
}
