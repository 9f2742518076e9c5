//! The operators of expressions, on words and on operands that may be stuck.
ghost use Rattle.std.specs.Prelude.{◌≡◌, min};
ghost use Rattle.kernel_code.specs.Meaning.{apply, apply_each, width, width_of};

use crate::syntax::Op;

/// The operator of two words.
#[tactic(auto, unfolding(numbers::specs::Ring::word_sum, numbers::specs::Ring::word_difference, numbers::specs::Ring::word_product))]
#[inline(always)]
pub fn apply_to_words(op: Op, x: u64, y: u64) -> u64
    ensures { result ≡ apply op x y }
{
    match op {
        Op::Add => x.wrapping_add(y),
        Op::Sub => x.wrapping_sub(y),
        Op::Mul => x.wrapping_mul(y),
        Op::BitAnd => x & y,
        Op::Less => u64::from(x < y),
        Op::Equal => u64::from(x == y),
        Op::NotEqual => u64::from(x != y),
        Op::And => u64::from(x != 0 && y != 0),
        Op::Or => u64::from(x != 0 || y != 0),
    }
}

/// The least of two operands that may be stuck.
pub fn least_operand(x: Option<u64>, y: Option<u64>) -> Option<u64>
    ensures { result ≡ apply_each min x y }
{
    match (x, y) {
        (Some(x), Some(y)) => Some(x.min(y)),
        _ => None,
    }
}

/// The smallest power of two that is at least 2 and at least twice a word; none above 2^62.
fn width_of_word(x: u64) -> Option<u64>
    ensures { result ≡ width x }
{
    if x > 1 << 62 {
        return None;
    }
    let power = x.next_power_of_two();
    Some(2 * power)
}

/// The width of blocks for an operand that may be stuck; none above 2^62.
pub fn width_of_operand(x: Option<u64>) -> Option<u64>
    ensures { result ≡ width_of x }
{
    match x {
        None => None,
        Some(x) => width_of_word(x),
    }
}
