//! Cases of the levels of packed entries, one below another, asked by the calls of a level.
ghost use Rattle.std.specs.Prelude.{◌≡◌, ℕ, IfSome};
ghost use Rattle.level_core.specs.Entries.{one};
ghost use Rattle.tensor_storage.specs.Levels.{meaning};
ghost use Rattle.tensor_storage.specs.Storages.{IsOpen};
ghost use Rattle.storage_arrays.specs.Arrays.{AreDone};

use crate::tensors::{Parts, pack};
use case_files::Answer;
use format_spec::FormatLevel;
use level_core::{Entry, Level, LevelKind, Span, positions_below, walk};
use storage_arrays::positions_of;
use tensor_storage::StorageLevel;
use trees::Items;

/// Tells how many parents and positions each level has, from the top.
fn tell_positions(answer: &mut Answer, levels: &[StorageLevel], parents: u64)
    requires { AreDone parents levels.now }
{
    let Some((level, below)) = levels.split_first() else {
        return;
    };
    answer.show(level.letter());
    answer.tell(": parents ");
    answer.show(parents);
    answer.tell(" positions ");
    answer.show(positions_below(level, parents));
    answer.tell("\n");
    tell_positions(answer, below, positions_of(level, parents));
}

fn tell_span(answer: &mut Answer, before: &str, span: Span) {
    answer.tell(before);
    answer.show_all(&[span.lo, span.hi]);
}

/// Tells the segment below a span that may be asked, and the entries there.
fn tell_segment<L: Level>(answer: &mut Answer, level: &L, span: Span, entries: &[Entry])
    requires { L.meaning.allowed level.now span }
{
    answer.show(level.letter());
    tell_span(answer, " below", span);
    tell_span(answer, ": segment", level.segment(span));
    for Entry { coord, child } in entries {
        answer.tell(", ");
        answer.show(*coord);
        tell_span(answer, " at", *child);
    }
    answer.tell("\n");
}

/// Tells the places of the coordinates below a parent, from 0 up to a range itself, with a minus for none.
fn tell_places<L: Level>(answer: &mut Answer, level: &L, parent: u64, range: u64)
    requires { L.meaning.allowed level.now (one parent) }
{
    answer.tell("places below ");
    answer.show(parent);
    answer.tell(":");
    for coord in 0..range.saturating_add(1) {
        match level.locate(parent, coord) {
            Some(place) => answer.show_all(&[place]),
            None => answer.tell(" -"),
        }
    }
    answer.tell("\n");
}

/// Tells of the entries of a level below a span that may be asked.
fn tell_level(
    answer: &mut Answer,
    level: &StorageLevel,
    span: Span,
    range: u64,
) -> Option<Items<Entry>>
    requires { meaning.allowed level.now span }
    ensures { IfSome result (λ entries. entries ≡ meaning.entries level.now span) }
{
    let walked = walk(answer.alloc(), level, span);
    let entries = answer.made(walked)?;
    tell_segment(answer, level, span, entries.as_slice());
    if level.caps().locate {
        tell_places(answer, level, span.lo, range);
    }
    Some(entries)
}

/// Tells of levels of a format below a span that may be asked.
fn tell_levels(
    answer: &mut Answer,
    levels: &[StorageLevel],
    format: &[FormatLevel],
    ranges: &[u64],
    span: Span,
) -> Option<()>
    requires { (positions : ℕ) × IsOpen meaning levels.now positions span }
{
    let Some((level, below)) = levels.split_first() else {
        return Some(());
    };
    let (top, format_below) = format.split_first()?;
    let range = ranges.get(top.mode).copied()?;
    let entries = tell_level(answer, level, span, range)?;
    for entry in entries.as_slice() {
        tell_levels(answer, below, format_below, ranges, entry.child)?;
    }
    Some(())
}

/// What is told of the levels of packed entries.
pub(crate) fn tell_tensor_levels(answer: &mut Answer, parts: Parts<'_>) -> Option<()> {
    let Ok(tensor) = pack(answer, parts)? else {
        return None;
    };
    let ranges = answer.numbers(parts.ranges)?;
    tell_positions(answer, tensor.levels(), 1);
    let top = Span { lo: 0, hi: 1 };
    tell_levels(
        answer,
        tensor.levels(),
        tensor.format(),
        ranges.as_slice(),
        top,
    )
}
