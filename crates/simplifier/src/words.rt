// Operators of numbers.
ghost use Rattle.std.specs.Prelude.{◌≡◌, Some};
ghost use Rattle.kernel_code.specs.Meaning.{apply_both};

use kernel_code::{Op, apply_to_words};

fn of_first(op: Op, x: u64, y: Option<u64>) -> Option<u64>
    ensures { result ≡ apply_both op (Some x) y }
{
    match op {
        Op::And if x == 0 => Some(0),
        Op::Or if x != 0 => Some(1),
        _ => match y {
            None => None,
            Some(y) => Some(apply_to_words(op, x, y)),
        },
    }
}

/// What an operator answers where the operands that are known settle it.
pub(crate) fn of_operands(op: Op, x: Option<u64>, y: Option<u64>) -> Option<u64>
    ensures { result ≡ apply_both op x y }
{
    match x {
        None => None,
        Some(x) => of_first(op, x, y),
    }
}
