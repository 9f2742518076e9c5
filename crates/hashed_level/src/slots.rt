ghost use Rattle.std.specs.Prelude.{◌≡◌, ◌≢◌, ◌⊎◌, ℕ, ◌==◌, ◌≤◌, ◌<◌, ◌+◌};
ghost use Rattle.std.specs.Prelude.{IsTrue, false, length, replicate, slice_index, MatchOption};
ghost use Rattle.std.specs.Prelude.{IfOk};
ghost use Rattle.limits.specs.Limits.{greatest_position_count};
ghost use Rattle.level_core.specs.Entries.{position_of};
ghost use Rattle.hashed_level.specs.Slots.{empty_slot, coord_of, filled, KeepsBlock, Stops, Passes};

use seg_buffer::Segment;
use std::alloc::{AllocError, Global};

/// What an empty slot holds.
#[tactic(auto, unfolding(crate::specs::Slots::empty_slot))]
pub(crate) fn empty_slot() -> u64
    ensures { result ≡ empty_slot }
{
    u64::MAX
}

pub(crate) fn is_empty(word: u64) -> bool
    ensures { result ≡ (word == empty_slot) }
{
    word == empty_slot()
}

/// The coordinate in a slot that holds a word: none where it is empty.
pub fn coordinate_of(word: u64) -> Option<u64>
    ensures { result ≡ coord_of word }
{
    if is_empty(word) { None } else { Some(word) }
}

/// So many empty slots. Refused for want of memory alone.
pub(crate) fn empty_slots(alloc: Global, count: u64) -> Result<Segment<u64>, AllocError>
    ensures { IfOk result (λ slots. slots.items ≡ replicate count empty_slot) }
{
    let mut slots = Segment::with_room(alloc, count as usize)?;
    for made in 0..count {
        slots.push_reserved(empty_slot());
    }
    Ok(slots)
}

/// Whether a search for a coordinate ends at a slot that holds a word.
fn ends_search(word: u64, x: u64) -> bool
    ensures yes { IsTrue result → (word ≡ empty_slot) ⊎ (word ≡ x) }
    ensures no { result ≡ false → (word ≢ empty_slot) × (word ≢ x) }
{
    is_empty(word) || word == x
}

/// The slot where the search for a coordinate in a block ends, if there is one.
pub(crate) fn sought(slots: &[u64], base: u64, width: u64, x: u64) -> Option<u64>
    requires wide { 0 < width }
    requires inside { base + width ≤ length slots.now }
    requires few { length slots.now ≤ greatest_position_count }
    ensures { MatchOption result (Passes (slice_index slots.now) width base x width)
        (λ slot. Stops (slice_index slots.now) width base x slot) }
{
    let mut at = x % width;
    let mut steps = 0;
    while steps < width {
        let slot = base + at;
        let word = slots[slot as usize];
        if ends_search(word, x) {
            return Some(slot);
        }
        at = (at + 1) % width;
        steps += 1;
    }
    None
}

/// The slot of a coordinate in a block, if it is there.
pub(crate) fn slot_of(slots: &[u64], base: u64, width: u64, x: u64) -> Option<u64>
    requires wide { 0 < width }
    requires inside { base + width ≤ length slots.now }
    requires few { length slots.now ≤ greatest_position_count }
    ensures { (n : ℕ) → KeepsBlock (slice_index slots.now) n width base
        → result ≡ position_of (filled (slice_index slots.now) width base) x }
{
    match sought(slots, base, width, x) {
        None => None,
        Some(slot) => {
            let word = slots[slot as usize];
            if is_empty(word) { None } else { Some(slot) }
        }
    }
}
