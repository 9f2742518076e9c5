// Entries of plainly written lines, from the numbers and the value that were read in one pass.
ghost use Rattle.std.specs.Prelude.{ℕ, List, Ok, IsTrue, IfSome, length};
ghost use Rattle.text_lines.specs.Plain.{AreNumbers};
ghost use Rattle.tns_io.specs.Fields.{IsEntryOf};
ghost use Rattle.tns_io.specs.Plain.{CountFromZero};

use crate::entry_lines::word;

/// The value, as a word, of an entry whose line has these numbers, counted from 1, and this value behind them; its coordinates, counted
/// from 0, take the place of the numbers. None where a number is no coordinate, or values have no sign and this one is below 0.
#[inline(always)]
pub(crate) fn entry_of_numbers(value: i64, signed: bool, numbers: &mut [u64]) -> Option<u64>
    ensures { IfSome result (λ word. (tokens : List (List ℕ)) → AreNumbers tokens numbers.old value
        → IsEntryOf signed (length numbers.old) tokens numbers.new (Ok word)) }
{
    let Ok(word) = word(value, signed) else {
        return None;
    };
    if count_from_zero(numbers) {
        Some(word)
    } else {
        None
    }
}

/// Counts numbers from 0 that were counted from 1, and answers whether each is such as a file may have.
#[inline(always)]
fn count_from_zero(numbers: &mut [u64]) -> bool
    ensures { IsTrue result → CountFromZero numbers.old numbers.new }
{
    for number in numbers.iter_mut() {
        if *number == 0 || *number > limits::greatest_coordinate_in_file() {
            return false;
        }
        *number -= 1;
    }
    true
}
