//! Hashed levels, of the width of their blocks and of their slots.
ghost use Rattle.std.specs.Prelude.{Decides, ◌≡◌, ◌≤◌, ◌<◌, ◌*◌, ◌^◌, ℕ, length, slice_index};
ghost use Rattle.limits.specs.Limits.{greatest_position_count};
ghost use Rattle.kernel_code.specs.Widths.{slot_width};
ghost use Rattle.hashed_level.specs.Hashed.{Hashed};
ghost use Rattle.hashed_level.specs.Slots.{filled, KeepsBlock};
ghost use Rattle.level_checks.specs.Slots.{HasSlots};
ghost use Rattle.level_checks.specs.Widths.{most_below};

use crate::blocks::{filled_slots, keeps_block};
use limits::greatest_positions;

/// The smallest power of two that is at least 2 and at least twice a number.
fn width_for(most: u64) -> u64
    requires { most ≤ 2 ^ 62 }
    ensures { result ≡ slot_width most }
{
    let power = most.next_power_of_two();
    2 * power
}

/// Whether each of so many blocks keeps the rules.
fn keep_blocks(slots: &[u64], size: u64, width: usize, parents: usize) -> bool
    requires inside { parents * width ≤ length slots.now }
    requires few { length slots.now ≤ greatest_position_count }
    ensures { Decides result ((p : ℕ) → p < parents → KeepsBlock (slice_index slots.now) size width (p * width)) }
{
    for parent in 0..parents {
        if !keeps_block(slots, size, parent * width, width) {
            return false;
        }
    }
    true
}

/// The greatest number of coordinates in one of so many blocks.
fn most_filled(slots: &[u64], width: usize, parents: usize) -> u64
    requires inside { parents * width ≤ length slots.now }
    requires few { length slots.now ≤ greatest_position_count }
    ensures most { result ≡ most_below (λ s. filled (slice_index slots.now) width (s.lo * width)) parents }
    ensures within { result ≤ length slots.now }
{
    let mut most = 0;
    for parent in 0..parents {
        most = most.max(filled_slots(slots, parent * width, width));
    }
    most
}

/// Whether there is a hashed level of this range and so many parents with these words: a block for each parent, as wide as the greatest
/// number of coordinates below one of them wants it, and each coordinate where it is found.
pub(crate) fn is_hashed(size: u64, parents: u64, width: &[u64], slots: &[u64]) -> bool
    requires small { size ≤ greatest_position_count }
    requires few { parents ≤ greatest_position_count }
    ensures { Decides result ((l : Hashed) × HasSlots size parents width.now slots.now l) }
{
    if width.len() != 1 || slots.len() as u64 > greatest_positions() {
        return false;
    }
    let width = width[0];
    if parents as u128 * width as u128 != slots.len() as u128 {
        return false;
    }
    let width = width as usize;
    let parents = parents as usize;
    keep_blocks(slots, size, width, parents)
        && width as u64 == width_for(most_filled(slots, width, parents))
}
