ghost use Rattle.std.specs.Prelude.{◌≡◌, ◌≢◌, ℕ, ◌+◌, ◌≤◌, ◌<◌, ◌↔◌};
ghost use Rattle.std.specs.Prelude.{IsTrue, List, length, All, MatchOption, Some, slice_get};
ghost use Rattle.std.specs.Option.{option_map};
ghost use Rattle.limits.specs.Limits.{greatest_order};
ghost use Rattle.format_spec.specs.Formats.{IsOrder, standing};
ghost use Rattle.format_spec.specs.Words.{HasOrder, mode_text};

use smallvec::SmallVec;
use std::alloc::Global;

/// Modes as single digits joined by commas.
#[tactic(auto, unfolding(limits::specs::Limits::greatest_order))]
pub(crate) fn text_of(alloc: Global, modes: &[usize]) -> SmallVec<u8, 11>
    requires short { length modes.now ≤ greatest_order }
    requires digits { All (λ mode. mode < 10) modes.now }
    ensures { result.items ≡ mode_text modes.now }
{
    let mut text = SmallVec::new(alloc);
    for mode in modes {
        if !text.is_empty() {
            text.push_reserved(b',');
        }
        text.push_reserved(b'0' + *mode as u8);
    }
    text
}

/// The digit at a place of a text.
fn digit_at(text: &[u8], place: usize) -> Option<usize>
    ensures { MatchOption result
        ((digit : ℕ) → slice_get text.now place ≢ Some (48 + digit))
        (λ digit. slice_get text.now place ≡ Some (48 + digit)) }
{
    match text.get(place) {
        Some(byte) if *byte >= b'0' => Some((*byte - b'0') as usize),
        _ => None,
    }
}

/// Whether a mode of a tensor of this order isn't among these.
fn is_new(modes: &[usize], mode: usize, order: usize) -> bool
    ensures { IsTrue result ↔ ((mode < order) × All (λ other. other ≢ mode) modes.now) }
{
    mode < order && !modes.contains(&mode)
}

/// The modes in the order that a text tells.
#[tactic(auto, unfolding(limits::specs::Limits::greatest_order))]
fn read_modes(alloc: Global, text: &[u8], order: usize) -> Option<SmallVec<usize, 6>>
    requires { order ≤ greatest_order }
    ensures { MatchOption result
        ((modes : List ℕ) → IsOrder order modes → text.now ≢ mode_text modes)
        (λ modes. IsOrder order modes.items × (text.now ≡ mode_text modes.items)) }
{
    let mut modes = SmallVec::new(alloc);
    for place in 0..order {
        let Some(mode) = digit_at(text, 2 * place) else {
            return None;
        };
        if !is_new(modes.as_slice(), mode, order) {
            return None;
        }
        modes.push_reserved(mode);
    }
    if text_of(alloc, modes.as_slice()).as_slice() == text {
        Some(modes)
    } else {
        None
    }
}

/// The modes of a tensor of this order in their own order.
#[tactic(auto, unfolding(limits::specs::Limits::greatest_order))]
pub(crate) fn standing_order(alloc: Global, order: usize) -> SmallVec<usize, 6>
    requires { order ≤ greatest_order }
    ensures { result.items ≡ standing order }
{
    let mut modes = SmallVec::new(alloc);
    for mode in 0..order {
        modes.push_reserved(mode);
    }
    modes
}

/// The modes in the order of a text, or in their own order.
pub(crate) fn order_of(
    alloc: Global,
    text: Option<&str>,
    order: usize,
) -> Option<SmallVec<usize, 6>>
    requires { order ≤ greatest_order }
    ensures { MatchOption result
        ((modes : List ℕ) → HasOrder (option_map (λ given. given.now) text.entry) order modes → ⊥)
        (λ modes. HasOrder (option_map (λ given. given.now) text.entry) order modes.items) }
{
    match text {
        None => Some(standing_order(alloc, order)),
        Some(text) => read_modes(alloc, text.as_bytes(), order),
    }
}
