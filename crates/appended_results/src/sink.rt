//! A result that rows are appended to as the place where rows go.
ghost use Rattle.std.specs.Prelude.{◌≡◌, ◌≤◌, ◌<◌, ◌*◌, ◌+◌, ◌^◌, ℕ, true, length, slice_index, IfOk};
ghost use Rattle.std.specs.List.{list_all, range_with_len};
ghost use Rattle.format_spec.specs.declared.format.FormatLevel.{FormatLevel};
ghost use Rattle.format_spec.specs.Formats.{letters_of};
ghost use Rattle.appended_results.specs.Heads.{IsHead, is_full};
ghost use Rattle.appended_results.specs.Levels.{IsMine};
ghost use Rattle.appended_results.specs.Codes.{AreKeys, HasRoom};
ghost use Rattle.appended_results.specs.Sink.{appended_sink, IsRowCode, IsCopiedRow, copy_code};
ghost use Rattle.appended_results.specs.SinkLaws.{appended_laws};

use crate::heads::open_head;
use crate::values::add_value;
use format_spec::FormatLevel;
use kernel_code::{KExpr, KStmt};
use level_core::props_of;
use result_targets::RowSink;
use std::alloc::{AllocError, Global};
use trees::Items;

/// A result by the levels of its format, which rows are appended to: how many levels there are through the last that isn't dense, the first
/// of its variables, four for each level, and the word that values are before a row is added. A row's coordinates stand in the order of the
/// levels.
#[derive(Debug, Drop)]
pub struct AppendedSink {
    pub levels: Items<FormatLevel>,
    pub head: usize,
    pub base: u64,
    pub zero: u64,
}

/// Whether a level is dense.
fn is_full(level: FormatLevel) -> bool
    ensures { result ≡ is_full level.letter }
{
    props_of(level.letter).full
}

/// Whether these levels are all dense.
fn are_full(levels: &[FormatLevel]) -> bool
    ensures { result ≡ list_all (λ (level : FormatLevel). is_full level.letter) levels.now }
{
    levels.iter().all(|level| is_full(*level))
}

/// Whether the last of the first `head` levels isn't dense, and all below it are.
fn is_head(levels: &[FormatLevel], head: usize) -> bool
    ensures yes { result ≡ true → IsHead (letters_of levels.now) head }
    ensures only { IsHead (letters_of levels.now) head → result ≡ true }
{
    if head == 0 || head > levels.len() {
        return false;
    }
    if is_full(levels[head - 1]) {
        return false;
    }
    are_full(&levels[head..])
}

/// Whether the variables of so many levels stand below `free`.
fn is_below(base: u64, levels: usize, free: u64) -> bool
    requires { levels < 2 ^ 57 }
    ensures yes { result ≡ true → base + 4 * levels ≤ free }
    ensures only { base + 4 * levels ≤ free → result ≡ true }
{
    base <= free && 4 * levels as u64 <= free - base
}

/// Whether a variable is none of those of so many levels.
fn is_other(base: u64, levels: usize, variable: u64) -> bool
    requires { base + 4 * levels ≤ 2 ^ 62 }
    ensures { result ≡ true → IsMine base levels variable → ⊥ }
{
    variable < base || variable >= base + 4 * levels as u64
}

/// Whether none of these variables is one of so many levels.
fn are_other(base: u64, levels: usize, variables: &[u64]) -> bool
    requires { base + 4 * levels ≤ 2 ^ 62 }
    ensures { result ≡ true → (e : ℕ) → e < length variables.now → IsMine base levels (slice_index variables.now e) → ⊥ }
{
    for variable in variables {
        if !is_other(base, levels, *variable) {
            return false;
        }
    }
    true
}

/// So many variables from `free` on. Refused for want of memory alone.
fn variables_from(alloc: Global, free: u64, count: usize) -> Result<Items<u64>, AllocError>
    requires { free + count ≤ 2 ^ 62 }
    ensures { IfOk result (λ list. list ≡ range_with_len free count) }
{
    let mut list = Items::new(alloc);
    for n in 0..count {
        list.push(free + n as u64)?;
    }
    Ok(list)
}

/// Copies variables to those from `free` on. Refused for want of memory alone.
fn copies(alloc: Global, free: u64, keys: &[u64]) -> Result<Items<KStmt>, AllocError>
    requires { free + length keys.now ≤ 2 ^ 62 }
    ensures { IfOk result (λ code. code ≡ copy_code free keys.now (length keys.now)) }
{
    let mut code = Items::new(alloc);
    for n in 0..keys.len() {
        code.push(KStmt::Set(free + n as u64, KExpr::Var(keys[n])))?;
    }
    Ok(code)
}

/// Code of a row whose coordinates stand in variables beside the sink's. Refused for want of memory alone.
fn row_code(
    alloc: Global,
    sink: &AppendedSink,
    keys: &[u64],
    value: u64,
    free: u64,
) -> Result<Items<KStmt>, AllocError>
    requires head { IsHead (letters_of sink.now.levels) sink.now.head }
    requires keys { AreKeys (length sink.now.levels) sink.now.base free keys.now }
    requires room { HasRoom (length sink.now.levels) sink.now.base free }
    ensures { IfOk result (IsRowCode sink.now keys.now value free) }
{
    let levels = sink.levels.as_slice();
    let opening = open_head(alloc, levels, sink.head, sink.base, sink.zero, keys, free)?;
    let added = add_value(alloc, sink.base, sink.head, keys, value)?;
    let mut code = opening;
    code.append(added)?;
    Ok(code)
}

/// Code of a row whose coordinates stand in any variables: they are copied first. Refused for want of memory alone.
fn copied_row(
    alloc: Global,
    sink: &AppendedSink,
    keys: &[u64],
    value: u64,
    free: u64,
) -> Result<Items<KStmt>, AllocError>
    requires head { IsHead (letters_of sink.now.levels) sink.now.head }
    requires many { length keys.now ≡ length sink.now.levels }
    requires below { sink.now.base + 4 * length sink.now.levels ≤ free }
    requires room { free + 4 * length sink.now.levels < 2 ^ 61 }
    ensures { IfOk result (IsCopiedRow sink.now keys.now value free) }
{
    let count = keys.len() as u64;
    let mut code = copies(alloc, free, keys)?;
    code.push(KStmt::Set(free + count, KExpr::Var(value)))?;
    let copied = variables_from(alloc, free, keys.len())?;
    let row = row_code(
        alloc,
        sink,
        copied.as_slice(),
        free + count,
        free + count + 1,
    )?;
    code.append(row)?;
    Ok(code)
}

impl RowSink for AppendedSink {
    ghost sink = { appended_sink };

    fn add_row(
        &self,
        alloc: Global,
        keys: &[u64],
        value: u64,
        free: u64,
    ) -> Result<Items<KStmt>, AllocError> {
        let levels = self.levels.len();
        // No memory holds so many levels or variables.
        if levels >= 1 << 57 || free >= 1 << 60 {
            return Err(AllocError);
        }
        // Such a sink holds no rows.
        if !is_head(self.levels.as_slice(), self.head) {
            return Ok(Items::new(alloc));
        }
        if !is_below(self.base, levels, free) {
            return Ok(Items::new(alloc));
        }
        if !are_other(self.base, levels, keys) {
            return copied_row(alloc, self, keys, value, free);
        }
        if !is_other(self.base, levels, value) {
            return copied_row(alloc, self, keys, value, free);
        }
        row_code(alloc, self, keys, value, free)
    }

    ghost laws = { appended_laws };
}
