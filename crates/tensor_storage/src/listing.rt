// The paths of a storage as entries.
ghost use Rattle.std.specs.Prelude.{◌≡◌, ◌≤◌, ◌<◌, ◌++◌, length, map, drop, true};
ghost use Rattle.std.specs.Prelude.{All, List, slice_index, IfOk, OnOk, MatchOption};
ghost use Rattle.limits.specs.Limits.{greatest_order};
ghost use Rattle.format_spec.specs.Formats.{IsFormat, modes_of};
ghost use Rattle.level_core.specs.declared.span.Entry.{Entry as LevelEntry};
ghost use Rattle.tensor_map.specs.Entries.{AreEntries, StrictlyIncreasing};
ghost use Rattle.tensor_storage.specs.Routes.{AreLevelsOf, AreSorted, routes, in_mode_order, entry_of};
ghost use Rattle.tensor_storage.specs.Storages.{IsOpen};
ghost use Rattle.tensor_storage.specs.Walks.{Walking, IsNext};

use format_spec::FormatLevel;
use level_core::{Entry, Level, Span};
use std::alloc::{AllocError, Global};
use std::cmp::Ordering;
use tensor_map::{Coords, Entries, Semiring};

/// The level, counted from 0, that stores a mode.
fn level_of_mode(format: &[FormatLevel], mode: usize) -> usize
    requires format { IsFormat format.now }
    requires mode { mode < length format.now }
    ensures within { result < length format.now }
    ensures mode { slice_index (modes_of format.now) result ≡ mode }
{
    for level in 0..format.len() {
        if format[level].mode == mode {
            return level;
        }
    }
    unreachable!()
}

/// The level of each mode. Refused for want of memory alone.
pub(crate) fn levels_of_modes(
    alloc: Global,
    format: &[FormatLevel],
) -> Result<Vec<usize>, AllocError>
    requires { IsFormat format.now }
    ensures { IfOk result (λ places. AreLevelsOf (modes_of format.now) places.items) }
{
    let mut places = Vec::new(alloc);
    for mode in 0..format.len() {
        places.push(level_of_mode(format, mode))?;
    }
    Ok(places)
}

/// The coordinates of a path in the order of the modes.
fn coords_of_path(alloc: Global, places: &[usize], path: &[u64]) -> Coords
    requires few { length places.now ≤ greatest_order }
    requires within { All (λ place. place < length path.now) places.now }
    ensures { result ≡ in_mode_order places.now path.now }
{
    let mut coords = Coords::new(alloc);
    for place in places {
        coords.push(path[*place]);
    }
    coords
}

/// The first entry at or behind a position of the segment of an allowed parent, if there is one.
fn next_entry<L: Level>(level: &L, parent: Span, segment: Span, from: u64) -> Option<Entry>
    requires allowed { L.meaning.allowed level.now parent }
    requires segment { segment ≡ L.meaning.segment_of level.now parent }
    requires walking { (done : List LevelEntry) × Walking segment from done (L.meaning.entries level.now parent) }
    ensures { (done : List LevelEntry) → Walking segment from done (L.meaning.entries level.now parent)
        → MatchOption result (done ≡ L.meaning.entries level.now parent) (IsNext segment from done (L.meaning.entries level.now parent)) }
{
    let mut position = from;
    while position < segment.hi {
        match level.coord(position) {
            None => position += 1,
            Some(coord) => {
                return Some(Entry {
                    coord,
                    child: level.child(position, segment),
                });
            }
        }
    }
    None
}

/// Appends the paths of the levels from the one numbered `depth` on, below a span that may be asked, to which `path` has led. Where there
/// is no value, no path ends, and none is begun. Refused for want of memory alone.
pub(crate) fn append_paths<L: Level>(
    alloc: Global,
    levels: &[L],
    depth: usize,
    span: Span,
    values: &[u64],
    places: &[usize],
    path: &mut Vec<u64>,
    entries: &mut Entries,
) -> Result<(), AllocError>
    requires depth { depth ≤ length levels.now }
    requires path { length path.old.items ≡ depth }
    requires opened { IsOpen L.meaning (drop depth levels.now) (length values.now) span }
    requires few { length places.now ≤ greatest_order }
    requires places { All (λ place. place < length levels.now) places.now }
    requires order { entries.old.order ≡ length places.now }
    ensures path { OnOk result (path.new.items ≡ path.old.items) }
    ensures order { entries.new.order ≡ entries.old.order }
    ensures ok { OnOk result (entries.new.list ≡ entries.old.list
        ++ map (entry_of places.now values.now path.old.items) (routes L.meaning (drop depth levels.now) span)) }
{
    if depth == levels.len() {
        let coords = coords_of_path(alloc, places, path);
        entries.push(coords.as_slice(), values[span.lo as usize])?;
        return Ok(());
    }
    if values.is_empty() {
        return Ok(());
    }
    let level = &levels[depth];
    let segment = level.segment(span);
    let mut position = segment.lo;
    while let Some(entry) = next_entry(level, span, segment, position) {
        path.push(entry.coord)?;
        append_paths(
            alloc,
            levels,
            depth + 1,
            entry.child,
            values,
            places,
            path,
            entries,
        )?;
        let _ = path.pop();
        position = entry.child.hi;
    }
    Ok(())
}

/// Whether the entries stand in the order of their coordinates, none of which stand twice.
fn are_increasing(entries: &Entries) -> bool
    ensures increasing { result ≡ true → StrictlyIncreasing entries.now.list }
    ensures entries { AreEntries entries.now }
{
    for next in 1..entries.len() {
        let earlier = entries.coords(next - 1);
        let later = entries.coords(next);
        if earlier.as_slice().cmp(&later.as_slice()) != Ordering::Less {
            return false;
        }
    }
    true
}

/// Puts entries in the order of their coordinates, and adds the values of equal ones. Entries that increase are left as they are.
/// Refused for want of memory alone.
pub(crate) fn sort_entries<S: Semiring>(entries: &mut Entries) -> Result<(), AllocError>
    ensures order { entries.new.order ≡ entries.old.order }
    ensures ok { OnOk result (AreSorted S.arithmetic entries.old.list entries.new.list) }
{
    if are_increasing(entries) {
        return Ok(());
    }
    entries.sort_sum::<S>()?;
    Ok(())
}
