ghost use Rattle.std.specs.Prelude.{◌≡◌, ◌≤◌, ◌+◌, ◌==◌, ◌^◌, ◌-◌, ◌||◌, if◌then◌else◌, drop, length};
ghost use Rattle.std.specs.List.{list_all, position, position_or_len, before_first, after_first};
ghost use Rattle.std.specs.Str.{all_ascii_digits};
ghost use Rattle.std.specs.Str.Parse.{starts_with_minus, without_leading_sign};
ghost use Rattle.text_lines.specs.Numbers.{is_point, is_exponent_mark, is_mantissa, is_number, is_unsigned_decimal, index_within};
ghost use Rattle.text_lines.specs.Numbers.{whole_part_of, with_sign, read_whole_of};

use crate::NumFault;
use crate::cuts::behind_first;
use crate::index::read_index;

/// What is 1 more than the greatest number of 63 bits, and less by 1 than the absolute value of the least one of 64 bits.
const HALF: u64 = 9_223_372_036_854_775_808;

/// The token without a plus or minus in front.
fn without_sign(token: &[u8]) -> &[u8]
    ensures { result.now ≡ without_leading_sign token.now }
{
    match token {
        [b'-' | b'+', rest @ ..] => rest,
        _ => token,
    }
}

/// Where the first point stands.
fn point(text: &[u8]) -> Option<usize>
    ensures { result ≡ position is_point text.now }
{
    text.iter().position(|byte| *byte == b'.')
}

/// What stands before the first point, and behind it.
fn cut_at_point(text: &[u8]) -> (&[u8], &[u8])
    ensures before { result.0.now ≡ before_first is_point text.now }
    ensures behind { result.1.now ≡ after_first is_point text.now }
{
    let (before, rest) = text.split_at(point(text).unwrap_or(text.len()));
    (before, behind_first(rest))
}

/// Whether all bytes are `0`.
fn are_zeros(text: &[u8]) -> bool
    ensures { result ≡ list_all (λ byte. byte == 48) text.now }
{
    text.iter().all(|byte| *byte == b'0')
}

/// The number of digits behind which there may be a point, and zeros behind that, which is at most `greatest`.
fn whole_number(text: &[u8], greatest: u64) -> Result<u64, NumFault>
    ensures { result ≡ index_within greatest (whole_part_of text.now) }
{
    let (digits, zeros) = cut_at_point(text);
    if are_zeros(zeros) {
        read_index(digits, greatest)
    } else {
        Err(NumFault::NotNumber)
    }
}

/// Whether all bytes are digits.
fn are_digits(text: &[u8]) -> bool
    ensures { result ≡ all_ascii_digits text.now }
{
    text.iter().all(|byte| byte.is_ascii_digit())
}

/// Whether the text is digits with a point or none.
fn is_mantissa_text(text: &[u8]) -> bool
    ensures { result ≡ is_mantissa text.now }
{
    let (before, behind) = cut_at_point(text);
    (are_digits(before) && are_digits(behind)) && !(before.is_empty() && behind.is_empty())
}

/// Whether the text is one or more digits.
fn is_number_text(text: &[u8]) -> bool
    ensures { result ≡ is_number text.now }
{
    !text.is_empty() && are_digits(text)
}

/// Where the first `e` or `E` stands.
fn exponent_mark(text: &[u8]) -> Option<usize>
    ensures { result ≡ position is_exponent_mark text.now }
{
    text.iter().position(|byte| *byte == b'e' || *byte == b'E')
}

/// What stands before the first `e` or `E`, and from it on.
fn cut_at_mark(text: &[u8]) -> (&[u8], &[u8])
    ensures before { result.0.now ≡ before_first is_exponent_mark text.now }
    ensures rest { result.1.now ≡ drop (position_or_len is_exponent_mark text.now) text.now }
{
    text.split_at(exponent_mark(text).unwrap_or(text.len()))
}

/// Whether the text is nothing, or a byte and a sign or none and digits.
fn is_power(text: &[u8]) -> bool
    ensures { result ≡ ((length text.now == 0) || is_number (without_leading_sign (drop 1 text.now))) }
{
    text.is_empty() || is_number_text(without_sign(behind_first(text)))
}

/// Whether the text is a decimal number without a sign, of any form.
fn is_unsigned(text: &[u8]) -> bool
    ensures { result ≡ is_unsigned_decimal text.now }
{
    let (mantissa, power) = cut_at_mark(text);
    is_mantissa_text(mantissa) && is_power(power)
}

/// The number with a minus or without, of 64 bits.
pub(crate) fn signed(negative: bool, number: u64) -> i64
    requires { number ≤ (if negative then 2 ^ 63 else 2 ^ 63 - 1) }
    ensures { result ≡ with_sign negative number }
{
    if !negative {
        number as i64
    } else if number == HALF {
        i64::MIN
    } else {
        -(number as i64)
    }
}

/// Whether the first byte is a minus.
fn is_negative(token: &[u8]) -> bool
    ensures { result ≡ starts_with_minus token.now }
{
    token.first() == Some(&b'-')
}

/// The whole number of 64 bits that a token stands for: a sign or none, one or more digits, and behind them a point and
/// zeros or nothing. `NumRange` where the number needs more bits, `NotWhole` where the token is a decimal number that isn't
/// so written, and `NotNumber` where it is anything else.
pub fn read_whole(token: &[u8]) -> Result<i64, NumFault>
    ensures { result ≡ read_whole_of token.now }
{
    let negative = is_negative(token);
    let greatest = if negative { HALF } else { HALF - 1 };
    match whole_number(without_sign(token), greatest) {
        Ok(number) => Ok(signed(negative, number)),
        Err(NumFault::NumRange) => Err(NumFault::NumRange),
        Err(_) if is_unsigned(without_sign(token)) => Err(NumFault::NotWhole),
        Err(_) => Err(NumFault::NotNumber),
    }
}
