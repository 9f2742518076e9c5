//! The operators of expressions, on operands that may be stuck.
ghost use Rattle.std.specs.Prelude.{◌≡◌, ℕ, Option, Some, MatchOption};
ghost use Rattle.kernel_code.specs.Meaning.{apply, apply_each, apply_both, combined};

use kernel_code::{Op, ValueOp};
use numbers::Semiring;

/// The value where the first operand decides it, whatever the second one is or wherever that is stuck; else none, and the
/// second operand counts.
pub fn decided_by_first(op: Op, x: u64) -> Option<u64>
    ensures { MatchOption result ((y : Option ℕ) → apply_both op (Some x) y ≡ apply_each (apply op) (Some x) y)
        (λ v. (y : Option ℕ) → apply_both op (Some x) y ≡ Some v) }
{
    match op {
        Op::And if x == 0 => Some(0),
        Op::Or if x != 0 => Some(1),
        _ => None,
    }
}

/// The sum or the product of two values that may be stuck.
pub fn combine_operands<S: Semiring>(op: ValueOp, x: Option<u64>, y: Option<u64>) -> Option<u64>
    ensures { result ≡ apply_each (combined S.arithmetic op) x y }
{
    match (x, y) {
        (Some(x), Some(y)) => Some(combine_words::<S>(op, x, y)),
        _ => None,
    }
}

fn combine_words<S: Semiring>(op: ValueOp, x: u64, y: u64) -> u64
    ensures { result ≡ combined S.arithmetic op x y }
{
    match op {
        ValueOp::Plus => S::plus(x, y),
        ValueOp::Times => S::times(x, y),
    }
}
