ghost use Rattle.std.specs.Prelude.{◌≡◌, ℕ, ◌+◌, ◌*◌, Some};
ghost use Rattle.text_lines.specs.Digits.{IsKept};
ghost use Rattle.text_lines.specs.Numbers.{index_within, read_index_of};

use crate::NumFault;

/// The number of a token of one or more digits, which is at most `greatest`. `NotNumber` where the token is
/// anything else, and `NumRange` where the number is greater.
pub fn read_index(token: &[u8], greatest: u64) -> Result<u64, NumFault>
    ensures { result ≡ read_index_of greatest token.now }
{
    if token.is_empty() {
        return Err(NumFault::NotNumber);
    }
    let mut number = Some(0);
    for byte in token {
        if !byte.is_ascii_digit() {
            return Err(NumFault::NotNumber);
        }
        number = with_digit(number, *byte - b'0');
    }
    at_most(number, greatest)
}

/// The number with one more digit behind it. There is none from 2^64 on.
fn with_digit(number: Option<u64>, digit: u8) -> Option<u64>
    ensures { (n : ℕ) → IsKept number n → IsKept result (n * 10 + digit) }
{
    number?.checked_mul(10)?.checked_add(u64::from(digit))
}

/// The number, if it isn't greater.
fn at_most(number: Option<u64>, greatest: u64) -> Result<u64, NumFault>
    ensures { (n : ℕ) → IsKept number n → result ≡ index_within greatest (Some n) }
{
    match number {
        Some(n) if n <= greatest => Ok(n),
        _ => Err(NumFault::NumRange),
    }
}
