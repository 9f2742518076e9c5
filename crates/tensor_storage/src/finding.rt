ghost use Rattle.std.specs.Prelude.{◌≡◌, ◌<◌, ℕ, length, slice_index, All, true};
ghost use Rattle.level_core.specs.Entries.{one};
ghost use Rattle.level_core.specs.Kinds.{capabilities};
ghost use Rattle.level_rows.specs.Stacks.{Path};
ghost use Rattle.tensor_storage.specs.Children.{child_of};
ghost use Rattle.tensor_storage.specs.Storages.{IsOpen, in_level_order};

use format_spec::FormatLevel;
use level_core::{Level, Span};

/// The child positions of a coordinate below an allowed parent, where the level locates coordinates.
fn located_child<L: Level>(level: &L, parent: Span, x: u64) -> Option<Span>
    requires allowed { L.meaning.allowed level.now parent }
    requires locates { (capabilities (L.meaning.kind level.now)).locate ≡ true }
    ensures { result ≡ child_of (L.meaning.entries level.now parent) x }
{
    match level.locate(parent.lo, x) {
        None => None,
        Some(position) => Some(Span {
            lo: position,
            hi: position + 1,
        }),
    }
}

/// The child positions of a coordinate below an allowed parent, sought from position to position.
fn sought_child<L: Level>(level: &L, parent: Span, x: u64) -> Option<Span>
    requires { L.meaning.allowed level.now parent }
    ensures { result ≡ child_of (L.meaning.entries level.now parent) x }
{
    let segment = level.segment(parent);
    let mut position = segment.lo;
    while position < segment.hi {
        match level.coord(position) {
            None => position += 1,
            Some(coord) => {
                let child = level.child(position, segment);
                if coord == x {
                    return Some(child);
                }
                position = child.hi;
            }
        }
    }
    None
}

/// The child positions of a coordinate below an allowed parent, if it is there.
pub(crate) fn child_below<L: Level>(level: &L, parent: Span, x: u64) -> Option<Span>
    requires { L.meaning.allowed level.now parent }
    ensures { result ≡ child_of (L.meaning.entries level.now parent) x }
{
    if level.caps().locate {
        located_child(level, parent, x)
    } else {
        sought_child(level, parent, x)
    }
}

/// The value at the position where the path with these coordinates ends, which stand in the order of the modes, or `absent` where
/// there is no such path.
pub(crate) fn value_at<L: Level>(
    levels: &[L],
    format: &[FormatLevel],
    values: &[u64],
    coords: &[u64],
    absent: u64,
) -> u64
    requires deep { length levels.now ≡ length format.now }
    requires modes { All (λ level. level.mode < length coords.now) format.now }
    requires opened { IsOpen L.meaning levels.now (length values.now) (one 0) }
    ensures stored { (pos : ℕ) → Path L.meaning levels.now (one 0) (in_level_order format.now coords.now) pos
        → result ≡ slice_index values.now pos }
    ensures none { ((pos : ℕ) → Path L.meaning levels.now (one 0) (in_level_order format.now coords.now) pos → ⊥)
        → result ≡ absent }
{
    let mut span = Span { lo: 0, hi: 1 };
    for depth in 0..levels.len() {
        match child_below(&levels[depth], span, coords[format[depth].mode]) {
            None => return absent,
            Some(child) => span = child,
        }
    }
    values[span.lo as usize]
}
