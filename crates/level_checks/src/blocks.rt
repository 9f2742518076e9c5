//! Blocks of slots, each empty or with a coordinate.
ghost use Rattle.std.specs.Prelude.{Decides, ◌≡◌, ◌≢◌, ◌≤◌, ◌<◌, ◌+◌, length, slice_index};
ghost use Rattle.limits.specs.Limits.{greatest_position_count};
ghost use Rattle.hashed_level.specs.Slots.{empty_slot, filled, KeepsBlock};
ghost use Rattle.level_checks.specs.Found.{IsFoundAt, KeepsSlot};
ghost use Rattle.level_checks.specs.Widths.{coordinates_in};

use hashed_level::coordinate_of;

/// Whether the search for a coordinate, which stands in the slot numbered `at` of a block, ends there.
fn is_found_at(slots: &[u64], base: usize, width: usize, x: u64, at: usize) -> bool
    requires wide { at < width }
    requires inside { base + width ≤ length slots.now }
    requires few { length slots.now ≤ greatest_position_count }
    ensures { Decides result (IsFoundAt (slice_index slots.now) width base x at) }
{
    let mut place = (x % width as u64) as usize;
    for step in 0..width {
        if place == at {
            return true;
        }
        match coordinate_of(slots[base + place]) {
            None => return false,
            Some(other) => {
                if other == x {
                    return false;
                }
            }
        }
        place = (place + 1) % width;
    }
    false
}

/// Whether a slot of a block is empty, or holds a coordinate below the range that is found there.
fn keeps_slot(slots: &[u64], size: u64, base: usize, width: usize, at: usize) -> bool
    requires wide { at < width }
    requires inside { base + width ≤ length slots.now }
    requires few { length slots.now ≤ greatest_position_count }
    ensures { Decides result (KeepsSlot (slice_index slots.now) size width base at) }
{
    match coordinate_of(slots[base + at]) {
        None => true,
        Some(x) => x < size && is_found_at(slots, base, width, x, at),
    }
}

/// Whether a block keeps the rules: each coordinate is below the range, stands once, and is found from where it is sought.
pub(crate) fn keeps_block(slots: &[u64], size: u64, base: usize, width: usize) -> bool
    requires inside { base + width ≤ length slots.now }
    requires few { length slots.now ≤ greatest_position_count }
    ensures { Decides result (KeepsBlock (slice_index slots.now) size width base) }
{
    for at in 0..width {
        if !keeps_slot(slots, size, base, width, at) {
            return false;
        }
    }
    true
}

/// How many coordinates a slot holds: one, or none where it is empty.
fn coordinates_in(word: u64) -> u64
    ensures { result ≡ coordinates_in word }
{
    match coordinate_of(word) {
        None => 0,
        Some(_) => 1,
    }
}

/// How many coordinates stand in the slots of a block.
pub(crate) fn filled_slots(slots: &[u64], base: usize, width: usize) -> u64
    requires inside { base + width ≤ length slots.now }
    requires few { length slots.now ≤ greatest_position_count }
    ensures count { result ≡ length (filled (slice_index slots.now) width base) }
    ensures within { result ≤ width }
{
    let mut count = 0;
    for at in 0..width {
        count += coordinates_in(slots[base + at]);
    }
    count
}
