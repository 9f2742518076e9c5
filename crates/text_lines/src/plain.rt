// Reads plainly written lines in one pass: numbers of digits alone, each with a space behind it, and digits with a minus or none.
ghost use Rattle.std.specs.Prelude.{◌≡◌, ◌≤◌, ◌∷◌, IfSome, length, take};
ghost use Rattle.std.specs.Str.Parse.{AllDigits, digits_value};
ghost use Rattle.text_lines.specs.Plain.{BeginsWith, BeginsWithValue, EndsLine, IsPlainLine, LeadsWith};

use crate::whole::signed;

/// Every number of so many digits has 63 bits.
const GREATEST_DIGITS: usize = 18;

/// The byte of the digit 0.
const ZERO: u64 = 48;

/// Reads the line that a text begins with, if it is plainly written: its numbers into `numbers`. It answers where its line feed stands, and
/// the value behind the numbers. Nothing is known of a line that it doesn't read.
#[inline(always)]
pub(crate) fn read_plain_line(text: &[u8], numbers: &mut [u64]) -> Option<(usize, i64)>
    ensures { IfSome result (λ found. IsPlainLine text.now numbers.new found.0 found.1) }
{
    let rest = read_numbers(text, numbers)?;
    let (value, behind) = first_value(rest)?;
    let count = bytes_to_feed(behind)?;
    Some((text.len() - behind.len() + count, value))
}

/// Reads numbers, each with a space behind it, and answers what stands behind them.
#[inline(always)]
fn read_numbers<'a>(text: &'a [u8], numbers: &mut [u64]) -> Option<&'a [u8]>
    ensures { IfSome result (λ rest. LeadsWith text.now numbers.new rest.now) }
{
    let mut rest = text;
    for number in numbers.iter_mut() {
        let (first, behind) = spaced_number(rest)?;
        *number = first;
        rest = behind;
    }
    Some(rest)
}

/// The number that a text begins with, and what stands behind the space behind it.
#[inline(always)]
fn spaced_number(text: &[u8]) -> Option<(u64, &[u8])>
    ensures { IfSome result (λ cut. BeginsWith text.now cut.0 (32 ∷ cut.1.now)) }
{
    let (number, behind) = first_number(text)?;
    let rest = behind_byte(behind, b' ')?;
    Some((number, rest))
}

/// The value that a text begins with, of digits with a minus or none, and what stands behind its digits.
#[inline(always)]
fn first_value(text: &[u8]) -> Option<(i64, &[u8])>
    ensures { IfSome result (λ cut. BeginsWithValue text.now cut.0 cut.1.now) }
{
    let (first, behind) = text.split_first()?;
    if *first == b'-' {
        let (number, rest) = first_number(behind)?;
        Some((signed(true, number), rest))
    } else {
        let (number, rest) = first_number(text)?;
        Some((signed(false, number), rest))
    }
}

/// How many bytes of a line's end stand before its line feed, where the line ends here: a carriage return or none.
#[inline(always)]
fn bytes_to_feed(text: &[u8]) -> Option<usize>
    ensures { IfSome result (λ count. EndsLine text.now count) }
{
    if let Some(_rest) = behind_byte(text, b'\n') {
        return Some(0);
    }
    let feed = behind_byte(text, b'\r')?;
    let _rest = behind_byte(feed, b'\n')?;
    Some(1)
}

/// What stands behind this byte where a text begins with it.
#[inline(always)]
fn behind_byte(text: &[u8], byte: u8) -> Option<&[u8]>
    ensures { IfSome result (λ rest. text.now ≡ byte ∷ rest.now) }
{
    let (first, rest) = text.split_first()?;
    if *first == byte { Some(rest) } else { None }
}

/// The number that a text begins with, of no more digits than surely have room, and what stands behind these. More bytes than that are to
/// stand there, so that none is read with a look at the text's end.
#[inline(always)]
fn first_number(text: &[u8]) -> Option<(u64, &[u8])>
    ensures { IfSome result (λ cut. BeginsWith text.now cut.0 cut.1.now) }
{
    if text.len() <= GREATEST_DIGITS {
        return None;
    }
    let mut number = 0;
    for end in 0..GREATEST_DIGITS {
        // Of a byte that is no digit this is more than 9.
        let digit = u64::from(text[end]).wrapping_sub(ZERO);
        if digit > 9 {
            return number_before(text, end, number);
        }
        number = number * 10 + digit;
    }
    number_before(text, GREATEST_DIGITS, number)
}

/// The number of the digits before this place, if there is one, and what stands from there on.
#[inline(always)]
fn number_before(text: &[u8], end: usize, number: u64) -> Option<(u64, &[u8])>
    requires within { end ≤ length text.now }
    requires few { end ≤ 18 }
    requires digits { AllDigits 10 (take end text.now) }
    requires number { number ≡ digits_value 10 (take end text.now) }
    ensures { IfSome result (λ cut. BeginsWith text.now cut.0 cut.1.now) }
{
    if end > 0 {
        let (_, behind) = text.split_at(end);
        Some((number, behind))
    } else {
        None
    }
}
