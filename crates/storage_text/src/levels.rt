// The lines of levels.
ghost use Rattle.std.specs.Prelude.{◌≡◌, ◌++◌, ◌∷◌, [], Some};
ghost use Rattle.kernel_code.specs.Meaning.{length_of};
ghost use Rattle.text_lines.specs.Puts.{Prints};
ghost use Rattle.tensor_storage.specs.Levels.{meaning};
ghost use Rattle.storage_text.specs.StoreText.{head_text, array_text, all_words, words_line, array_lines, level_lines, lines_from, text_of};

use crate::sequences::put_words;
use format_spec::letter_byte;
use level_core::{Level, LevelArray, LevelKind};
use outside::{Refusal, Sink};
use tensor_storage::StorageLevel;
use text_lines::{put_all, put_u64};

/// The word that names an array behind a blank; the range of a level has none.
fn array_text(array: LevelArray) -> &'static [u8]
    ensures { result.now ≡ array_text array }
{
    match array {
        LevelArray::Dimension => b"",
        LevelArray::Ends => b" pos",
        LevelArray::Width => b" width",
        LevelArray::Coordinates => b" crd",
    }
}

/// Appends what the line of an array begins with.
fn put_head<S: Sink>(
    sink: &mut S,
    number: u64,
    level: &StorageLevel,
    array: LevelArray,
) -> Result<(), Refusal>
    ensures { Prints (S.state sink.old) (S.state sink.new) (head_text number (meaning.kind level.now) ++ array_text array) result }
{
    let kind = level.letter();
    let letter = [b' ', letter_byte(kind)];
    let word = array_text(array);
    put_all(sink, b"level ")?;
    put_u64(sink, number)?;
    put_all(sink, &letter)?;
    put_all(sink, word)
}

/// Appends the line of an array that has so many words.
fn put_line<S: Sink>(
    sink: &mut S,
    number: u64,
    level: &StorageLevel,
    array: LevelArray,
    count: u64,
) -> Result<(), Refusal>
    requires { length_of (meaning.words level.now array) ≡ Some count }
    ensures { Prints (S.state sink.old) (S.state sink.new)
        (text_of (words_line number (meaning.kind level.now) array (all_words (meaning.words level.now array)) ∷ [])) result }
{
    put_head(sink, number, level, array)?;
    put_words(sink, level, array, count)?;
    put_all(sink, b"\n")
}

/// Appends the line of an array, if the level has it.
fn put_array<S: Sink>(
    sink: &mut S,
    number: u64,
    level: &StorageLevel,
    array: LevelArray,
) -> Result<(), Refusal>
    ensures { Prints (S.state sink.old) (S.state sink.new) (text_of (array_lines number level.now array)) result }
{
    match level.array_len(array) {
        None => Ok(()),
        Some(count) => put_line(sink, number, level, array, count),
    }
}

/// Appends the lines of a level, array by array.
fn put_level<S: Sink>(sink: &mut S, number: u64, level: &StorageLevel) -> Result<(), Refusal>
    ensures { Prints (S.state sink.old) (S.state sink.new) (text_of (level_lines number level.now)) result }
{
    put_array(sink, number, level, LevelArray::Dimension)?;
    put_array(sink, number, level, LevelArray::Ends)?;
    put_array(sink, number, level, LevelArray::Width)?;
    put_array(sink, number, level, LevelArray::Coordinates)
}

/// Appends the lines of all levels.
pub(crate) fn put_levels<S: Sink>(sink: &mut S, levels: &[StorageLevel]) -> Result<(), Refusal>
    ensures { Prints (S.state sink.old) (S.state sink.new) (text_of (lines_from 1 levels.now)) result }
{
    for (i, level) in levels.iter().enumerate() {
        put_level(sink, i as u64 + 1, level)?;
    }
    Ok(())
}
