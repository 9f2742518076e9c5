// Lists of numbers, each behind a blank.
ghost use Rattle.std.specs.Prelude.{◌≡◌, ℕ, Some};
ghost use Rattle.std.specs.Fmt.{signed_decimal};
ghost use Rattle.std.specs.List.{flat_map};
ghost use Rattle.kernel_code.specs.Meaning.{length_of, word_at};
ghost use Rattle.numbers.specs.Signed.{written_of};
ghost use Rattle.text_lines.specs.Puts.{Prints};
ghost use Rattle.tensor_storage.specs.Levels.{meaning};
ghost use Rattle.storage_text.specs.StoreText.{number_text, place_text, word_text, value_text, all_words};

use hashed_level::coordinate_of;
use level_core::{Level, LevelArray};
use numbers::{Semiring, signed};
use outside::{Refusal, Sink};
use tensor_storage::StorageLevel;
use text_lines::{put_all, put_i64, put_u64};

/// Appends a number.
pub(crate) fn put_number<S: Sink>(sink: &mut S, number: u64) -> Result<(), Refusal>
    ensures { Prints (S.state sink.old) (S.state sink.new) (number_text number) result }
{
    put_all(sink, b" ")?;
    put_u64(sink, number)
}

/// Appends a coordinate, or a minus.
fn put_place<S: Sink>(sink: &mut S, place: Option<u64>) -> Result<(), Refusal>
    ensures { Prints (S.state sink.old) (S.state sink.new) (place_text place) result }
{
    match place {
        None => put_all(sink, b" -"),
        Some(coord) => put_number(sink, coord),
    }
}

/// Appends a value alone, with its sign where values have one.
fn put_written<S: Semiring, K: Sink>(sink: &mut K, value: u64) -> Result<(), Refusal>
    ensures { Prints (K.state sink.old) (K.state sink.new) (signed_decimal (written_of S.is_signed value)) result }
{
    if S::is_signed() {
        put_i64(sink, signed(value))
    } else {
        put_u64(sink, value)
    }
}

/// Appends a value.
fn put_value<S: Semiring, K: Sink>(sink: &mut K, value: u64) -> Result<(), Refusal>
    ensures { Prints (K.state sink.old) (K.state sink.new) (value_text S.is_signed value) result }
{
    put_all(sink, b" ")?;
    put_written::<S, K>(sink, value)
}

/// Appends the word of an array at a place, if it is there.
fn put_word<S: Sink>(
    sink: &mut S,
    level: &StorageLevel,
    array: LevelArray,
    at: u64,
) -> Result<(), Refusal>
    ensures { (word : ℕ) → word_at (meaning.words level.now array) (Some at) ≡ Some word
        → Prints (S.state sink.old) (S.state sink.new) (word_text word) result }
{
    match level.array_word(array, at) {
        None => Ok(()),
        Some(word) => put_place(sink, coordinate_of(word)),
    }
}

/// Appends the words of an array that has so many.
pub(crate) fn put_words<S: Sink>(
    sink: &mut S,
    level: &StorageLevel,
    array: LevelArray,
    count: u64,
) -> Result<(), Refusal>
    requires { length_of (meaning.words level.now array) ≡ Some count }
    ensures { Prints (S.state sink.old) (S.state sink.new) (flat_map word_text (all_words (meaning.words level.now array))) result }
{
    for at in 0..count {
        put_word(sink, level, array, at)?;
    }
    Ok(())
}

/// Appends values.
pub(crate) fn put_values<S: Semiring, K: Sink>(sink: &mut K, values: &[u64]) -> Result<(), Refusal>
    ensures { Prints (K.state sink.old) (K.state sink.new) (flat_map (value_text S.is_signed) values.now) result }
{
    for value in values {
        put_value::<S, K>(sink, *value)?;
    }
    Ok(())
}
