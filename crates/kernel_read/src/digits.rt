// Numbers, as they are printed: without zeros in front, and below 2^64.
ghost use Rattle.std.specs.Prelude.{◌≡◌, ◌<◌, ◌≤◌, ◌++◌, ℕ, true, false, length, take, drop, slice_index};
ghost use Rattle.std.specs.Str.{all_ascii_digits};
ghost use Rattle.std.specs.Fmt.{decimal};
ghost use Rattle.kernel_print.specs.ArrayNames.{BeginsWithoutDigit, IsWord};
ghost use Rattle.kernel_read.specs.Reading.{Reads};

use crate::marks::{behind, behind_last, rest_at};
use text_lines::read_index;

/// How many digits stand at the front of a text.
fn digit_count(text: &[u8]) -> usize
    ensures within { result ≤ length text.now }
    ensures digits { all_ascii_digits (take result text.now) ≡ true }
    ensures stops { BeginsWithoutDigit (drop result text.now) }
{
    for (i, byte) in text.iter().enumerate() {
        if !byte.is_ascii_digit() {
            return i;
        }
    }
    text.len()
}

/// Whether a number of more than one digit begins with a zero.
fn begins_with_zero(digits: &[u8]) -> bool
    ensures no { result ≡ false → slice_index digits.now 0 ≡ 48 → length digits.now ≤ 1 }
    ensures yes { result ≡ true → (slice_index digits.now 0 ≡ 48) × (1 < length digits.now) }
{
    digits.len() > 1 && digits[0] == b'0'
}

/// The number at a place of a line, and the place behind it.
pub(crate) fn number_at(line: &[u8], at: usize) -> Option<(u64, usize)>
    requires { at ≤ length line.now }
    ensures { Reads ℕ decimal IsWord line.now at result }
{
    let text = rest_at(line, at);
    let count = digit_count(text);
    let digits = &text[..count];
    if begins_with_zero(digits) {
        return None;
    }
    match read_index(digits, u64::MAX) {
        Ok(number) => Some((number, at + count)),
        Err(_) => None,
    }
}

/// The number behind these bytes at a place of a line, and the place behind it.
pub(crate) fn name_at(line: &[u8], at: usize, before: &[u8]) -> Option<(u64, usize)>
    requires { at ≤ length line.now }
    ensures { Reads ℕ (λ n. before.now ++ decimal n) IsWord line.now at result }
{
    let at = behind(line, at, before)?;
    number_at(line, at)
}

/// The number between these bytes at a place of a line, and the place behind them.
pub(crate) fn numbered_at(
    line: &[u8],
    at: usize,
    before: &[u8],
    after: &[u8],
) -> Option<(u64, usize)>
    requires within { at ≤ length line.now }
    requires plain { BeginsWithoutDigit after.now }
    ensures { Reads ℕ (λ n. before.now ++ (decimal n ++ after.now)) IsWord line.now at result }
{
    let (number, at) = name_at(line, at, before)?;
    let at = behind_last(line, at, after)?;
    Some((number, at))
}
