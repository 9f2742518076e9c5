//! The machine's own arrays: which may be written, how long they may grow, and growth.
ghost use Rattle.std.specs.Prelude.{◌≡◌, ◌+◌, ◌++◌, ◌∷◌, [], replicate, OnOk};
ghost use Rattle.kernel_code.specs.Arrays.{same_arr, may_write, may_have, told_count, sum_in};

use kernel_code::Arr;
use limits::{greatest_pairs_of_workspace, greatest_positions};
use numbers::Semiring;
use seg_buffer::Segment;
use std::alloc::AllocError;

/// An array of the machine's own, with its name.
#[derive(Drop)]
pub struct OwnArray {
    pub name: Arr,
    pub words: Segment<u64>,
}

pub fn is_same(a: Arr, b: Arr) -> bool
    ensures { result ≡ same_arr a b }
{
    a == b
}

/// Whether a kernel may write an array.
pub fn may_be_written(a: Arr) -> bool
    ensures { result ≡ may_write a }
{
    match a {
        Arr::Range | Arr::Dimension(_, _) => false,
        Arr::Values(tensor)
        | Arr::Ends(tensor, _)
        | Arr::Coordinates(tensor, _)
        | Arr::Width(tensor, _) => tensor == 0,
        Arr::Key(_, _) | Arr::Sums(_) | Arr::ListCoordinates(_) | Arr::ListPositions(_) => true,
    }
}

/// Whether an array may have so many words.
#[tactic(auto, using(limits::proofs::Limits::positions_are_small))]
fn may_be_long(a: Arr, count: u128) -> bool
    ensures { result ≡ may_have a count }
{
    match a {
        Arr::Values(_) | Arr::Coordinates(_, _) => count <= greatest_positions() as u128,
        Arr::Ends(_, _) => count <= greatest_positions() as u128 + 1,
        Arr::Key(_, _) | Arr::Sums(_) => count <= greatest_pairs_of_workspace() as u128,
        _ => true,
    }
}

/// The sum of two words of an array: of values, or of plain words.
#[tactic(auto, unfolding(numbers::specs::Ring::word_sum))]
pub fn sum_of_words<S: Semiring>(a: Arr, x: u64, y: u64) -> u64
    ensures { result ≡ sum_in S.arithmetic a x y }
{
    match a {
        Arr::Values(_) | Arr::Sums(_) => S::plus(x, y),
        Arr::Range
        | Arr::Dimension(_, _)
        | Arr::Ends(_, _)
        | Arr::Coordinates(_, _)
        | Arr::Width(_, _)
        | Arr::Key(_, _)
        | Arr::ListCoordinates(_)
        | Arr::ListPositions(_) => x.wrapping_add(y),
    }
}

/// Whether an array of so many words may have so many more.
pub fn may_grow(a: Arr, length: u64, more: u64) -> bool
    ensures { result ≡ may_have a (length + more) }
{
    may_be_long(a, length as u128 + more as u128)
}

/// The count that is told where an array of so many words is refused so many more: of words, or of positions, which are
/// one fewer than the segment ends. It is exact, and may be no word.
pub fn count_told(a: Arr, length: u64, more: u64) -> u128
    ensures { result ≡ told_count a (length + more) }
{
    let words = length as u128 + more as u128;
    match a {
        Arr::Ends(_, _) => words.saturating_sub(1),
        Arr::Range
        | Arr::Values(_)
        | Arr::Dimension(_, _)
        | Arr::Coordinates(_, _)
        | Arr::Width(_, _)
        | Arr::Key(_, _)
        | Arr::Sums(_)
        | Arr::ListCoordinates(_)
        | Arr::ListPositions(_) => words,
    }
}

/// Appends n copies of a word. Refused for want of memory, the words are as before.
pub fn append_copies(words: &mut Segment<u64>, n: u64, word: u64) -> Result<(), AllocError>
    ensures { OnOk result (words.new.items ≡ words.old.items ++ replicate n word) }
{
    words.reserve(n as usize)?;
    for _ in 0..n {
        words.push_reserved(word);
    }
    Ok(())
}

/// Appends a word. Refused for want of memory, the words are as before.
pub fn append_word(words: &mut Segment<u64>, word: u64) -> Result<(), AllocError>
    ensures { OnOk result (words.new.items ≡ words.old.items ++ word ∷ []) }
{
    words.reserve(1)?;
    words.push_reserved(word);
    Ok(())
}
