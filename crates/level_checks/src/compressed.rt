//! Compressed levels, of the number of positions of each parent and of their coordinates.
ghost use Rattle.std.specs.Prelude.{Decides, ◌≡◌, ◌≤◌, length};
ghost use Rattle.limits.specs.Limits.{greatest_position_count};
ghost use Rattle.level_core.specs.Logs.{total};
ghost use Rattle.compressed_level.specs.Compressed.{CompressedLevel, PartsRise};
ghost use Rattle.compressed_level.specs.Handed.{HasWords};

use crate::coordinates::{are_below, rise};
use limits::greatest_positions;

/// Whether numbers add up to a count, as whole numbers.
fn add_up(numbers: &[u64], count: u64) -> bool
    ensures { Decides result (total numbers.now ≡ count) }
{
    let mut left = count;
    for number in numbers {
        if *number > left {
            return false;
        }
        left -= *number;
    }
    left == 0
}

/// Whether the coordinates of each parent rise, where each parent has so many, one parent's behind another's.
fn parts_rise(unique: bool, counts: &[u64], coords: &[u64]) -> bool
    requires { total counts.now ≡ length coords.now }
    ensures { Decides result (PartsRise unique counts.now coords.now) }
{
    let mut rest = coords;
    for count in counts {
        let (part, others) = rest.split_at(*count as usize);
        if !rise(unique, part) {
            return false;
        }
        rest = others;
    }
    true
}

/// Whether there is a finished compressed level of this range and so many parents with these words: a zero, the number of positions of
/// each parent, and a coordinate for each position, each below the range and in order below each parent.
pub(crate) fn is_compressed(
    size: u64,
    unique: bool,
    parents: u64,
    numbers: &[u64],
    coords: &[u64],
) -> bool
    requires small { size ≤ greatest_position_count }
    requires few { parents ≤ greatest_position_count }
    ensures { Decides result ((l : CompressedLevel) × HasWords size unique parents numbers.now coords.now l) }
{
    if numbers.len() as u64 != parents + 1 {
        return false;
    }
    if numbers[0] != 0 {
        return false;
    }
    let (_zero, counts) = numbers.split_at(1);
    let count = coords.len() as u64;
    if count > greatest_positions() {
        return false;
    }
    if !add_up(counts, count) {
        return false;
    }
    are_below(size, coords) && parts_rise(unique, counts, coords)
}
