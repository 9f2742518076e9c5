ghost use Rattle.std.specs.Prelude.{◌≡◌, ◌≢◌, ℕ, ◌≤◌, ◌↔◌, ◌⊎◌};
ghost use Rattle.std.specs.Prelude.{false, List, length, IsTrue, MatchOption, MatchResult};
ghost use Rattle.std.specs.Option.{option_map};
ghost use Rattle.limits.specs.Limits.{greatest_order};
ghost use Rattle.format_spec.specs.declared.fault.FormatFault.TheVariants.{BadChain, BelowHashed};
ghost use Rattle.format_spec.specs.Formats.{Letter, IsOrder, letters_of, modes_of, Chained, InsertedBelowUnordered};
ghost use Rattle.format_spec.specs.Words.{letter_byte, AreLetters, Answers};

use crate::fault::FormatFault;
use crate::format::{Format, FormatLevel};
use crate::modes::order_of;
use crate::rules::{is_chained, is_inserted_below_unordered};
use level_core::Letter;
use smallvec::SmallVec;
use std::alloc::Global;

/// The kind that a letter names.
pub(crate) fn kind_of(letter: u8) -> Option<Letter>
    ensures { MatchOption result ((kind : Letter) → letter_byte kind ≢ letter) (λ kind. letter_byte kind ≡ letter) }
{
    match letter {
        b'd' => Some(Letter::Dense),
        b's' => Some(Letter::Compressed),
        b'u' => Some(Letter::CompressedGroups),
        b'q' => Some(Letter::Singleton),
        b'c' => Some(Letter::SingletonGroups),
        b'h' => Some(Letter::Hashed),
        _ => None,
    }
}

/// Whether each letter names a kind.
fn are_letters(letters: &[u8]) -> bool
    ensures { IsTrue result ↔ ((kinds : List Letter) × AreLetters letters.now kinds) }
{
    letters.iter().all(|letter| kind_of(*letter).is_some())
}

/// The levels of these letters and modes, and none where a letter names no kind.
#[tactic(auto, unfolding(limits::specs::Limits::greatest_order))]
fn levels_of(alloc: Global, letters: &[u8], modes: &[usize]) -> Option<SmallVec<FormatLevel, 6>>
    requires count { length letters.now ≡ length modes.now }
    requires short { length letters.now ≤ greatest_order }
    ensures { MatchOption result
        ((kinds : List Letter) → AreLetters letters.now kinds → ⊥)
        (λ levels. AreLetters letters.now (letters_of levels.items) × (modes_of levels.items ≡ modes.now) × (levels.capacity ≡ 6)) }
{
    let mut levels = SmallVec::new(alloc);
    for letter in letters {
        let Some(letter) = kind_of(*letter) else {
            return None;
        };
        let mode = modes[levels.len()];
        levels.push_reserved(FormatLevel { letter, mode });
    }
    Some(levels)
}

/// A format of these levels, unless they can't stand below one another.
fn format_of(levels: SmallVec<FormatLevel, 6>) -> Result<Format, FormatFault>
    requires short { length levels.items ≤ greatest_order }
    requires order { IsOrder (length levels.items) (modes_of levels.items) }
    requires inline { levels.capacity ≡ 6 }
    ensures { MatchResult result
        (λ format. (format ≡ levels.items) × Chained false (letters_of levels.items) × InsertedBelowUnordered (letters_of levels.items))
        (λ fault. ((fault ≡ BadChain) × (Chained false (letters_of levels.items) → ⊥)) ⊎
        ((fault ≡ BelowHashed) × Chained false (letters_of levels.items) × (InsertedBelowUnordered (letters_of levels.items) → ⊥))) }
{
    if !is_chained(levels.as_slice()) {
        return Err(FormatFault::BadChain);
    }
    if !is_inserted_below_unordered(levels.as_slice()) {
        return Err(FormatFault::BelowHashed);
    }
    Ok(Format::from_levels(levels))
}

/// The format that the letters and the order of a word stand for, for a tensor of this order, or the first fault. Without
/// an order the levels store the modes in their own order. It takes no memory.
pub fn parse_format(
    alloc: Global,
    letters: &str,
    order_text: Option<&str>,
    order: usize,
) -> Result<Format, FormatFault>
    requires { order ≤ greatest_order }
    ensures { Answers letters.now (option_map (λ text. text.now) order_text.entry) order result }
{
    if !are_letters(letters.as_bytes()) {
        return Err(FormatFault::BadLetter);
    }
    if letters.len() != order {
        return Err(FormatFault::BadLength);
    }
    let Some(modes) = order_of(alloc, order_text, order) else {
        return Err(FormatFault::BadOrder);
    };
    let Some(levels) = levels_of(alloc, letters.as_bytes(), modes.as_slice()) else {
        return Err(FormatFault::BadLetter);
    };
    format_of(levels)
}
