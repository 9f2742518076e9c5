//! The paths through levels: whether each can be followed to its end, and which values no path ends at.
ghost use Rattle.std.specs.Prelude.{Decides, ◌≡◌, ◌≤◌, ◌<◌, ◌+◌, drop, length, slice_set, true, All, IfOk};
ghost use Rattle.level_core.specs.Entries.{one};
ghost use Rattle.tensor_storage.specs.Levels.{meaning};
ghost use Rattle.tensor_storage.specs.Storages.{IsOpen};
ghost use Rattle.storage_arrays.specs.Arrays.{AreDone};
ghost use Rattle.storage_builder.specs.Checked.{HasZeros};
ghost use Rattle.storage_builder.specs.Cleared.{IsCleared, EndsBelow};

use level_checks::may_ask;
use level_core::{Span, walk};
use std::alloc::{AllocError, Global};
use storage_arrays::positions_of;
use tensor_storage::StorageLevel;

/// Whether a span is the position of a value, in whose place `nothing` is put then.
fn clear_value(span: Span, nothing: u64, values: &mut [u64]) -> bool
    requires { span.lo < span.hi }
    ensures one { Decides result ((span.hi ≡ span.lo + 1) × (span.lo < length values.old)) }
    ensures long { length values.new ≡ length values.old }
    ensures cleared { result ≡ true → values.new ≡ slice_set values.old span.lo nothing }
{
    if span.hi != span.lo + 1 || span.lo >= values.len() as u64 {
        return false;
    }
    values[span.lo as usize] = nothing;
    true
}

/// Whether the levels from the one numbered `depth` on can be asked below a span, and so below each path from there, which then ends at
/// one value; `nothing` is put in the place of each such value. Refused for want of memory alone.
fn clear_paths(
    alloc: Global,
    levels: &[StorageLevel],
    depth: usize,
    parents: u64,
    span: Span,
    nothing: u64,
    values: &mut [u64],
) -> Result<bool, AllocError>
    requires depth { depth ≤ length levels.now }
    requires done { AreDone parents (drop depth levels.now) }
    requires some { span.lo < span.hi }
    requires within { span.hi ≤ parents }
    ensures opened { IfOk result (λ b. Decides b (IsOpen meaning (drop depth levels.now) (length values.old) span)) }
    ensures long { length values.new ≡ length values.old }
    ensures cleared { IfOk result (λ b. b ≡ true
        → IsCleared (EndsBelow meaning (drop depth levels.now) span) nothing values.old values.new) }
{
    if depth == levels.len() {
        return Ok(clear_value(span, nothing, values));
    }
    let level = &levels[depth];
    if !may_ask(level, parents, span) {
        return Ok(false);
    }
    let count = positions_of(level, parents);
    let entries = walk(alloc, level, span)?;
    let found = entries.as_slice();
    for entry in found {
        if !clear_paths(
            alloc,
            levels,
            depth + 1,
            count,
            entry.child,
            nothing,
            values,
        )? {
            return Ok(false);
        }
    }
    Ok(true)
}

/// Whether all values are this one.
fn are_all(nothing: u64, values: &[u64]) -> bool
    ensures { Decides result (All (λ value. value ≡ nothing) values.now) }
{
    for value in values {
        if *value != nothing {
            return false;
        }
    }
    true
}

/// Whether below each path through the levels the next one may be asked, each path ends at one of the values, and `nothing` is each value
/// where no path ends. `nothing` is put in the place of the others. Refused for want of memory alone.
pub(crate) fn have_paths(
    alloc: Global,
    levels: &[StorageLevel],
    nothing: u64,
    values: &mut [u64],
) -> Result<bool, AllocError>
    requires { AreDone 1 levels.now }
    ensures { IfOk result (λ b. Decides b
        (IsOpen meaning levels.now (length values.old) (one 0) × HasZeros nothing levels.now values.old)) }
{
    let top = Span { lo: 0, hi: 1 };
    if !clear_paths(alloc, levels, 0, 1, top, nothing, values)? {
        return Ok(false);
    }
    Ok(are_all(nothing, values))
}
