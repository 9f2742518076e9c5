//! Resolved expressions, read where they stand.
ghost use Rattle.std.specs.Prelude.{◌≡◌};
ghost use Rattle.kernel_code.specs.Meaning.{apply, apply_each, value};
ghost use Rattle.resolved_code.specs.Erase.{erase_value};
ghost use Rattle.resolved_code.specs.Fits.{Reads};
ghost use Rattle.kernel_interpreter.specs.Memory.{variable_room};
ghost use Rattle.kernel_interpreter.specs.Store.{state_of};

use crate::machine::{Machine, value_in_place};
use kernel_code::{Op, apply_to_words, least_operand};
use resolved_code::Value;

/// An operator of two words that may be stuck, and counts both.
#[inline(always)]
pub(crate) fn applied(op: Op, x: Option<u64>, y: Option<u64>) -> Option<u64>
    ensures { result ≡ apply_each (apply op) x y }
{
    match (x, y) {
        (Some(x), Some(y)) => Some(apply_to_words(op, x, y)),
        _ => None,
    }
}

/// The value of a resolved expression, or none where it is stuck.
#[inline(never)]
fn value_apart(machine: &Machine, v: &Value) -> Option<u64>
    requires { Reads (variable_room machine.now) v.now }
    ensures { result ≡ value (erase_value v.now) (state_of machine.now) }
{
    match v {
        Value::Number(n) => Some(*n),
        Value::Variable(x) => machine.slot(*x),
        Value::AddNumber(x, n) => applied(Op::Add, machine.slot(*x), Some(*n)),
        Value::Add(x, y) => applied(Op::Add, machine.slot(*x), machine.slot(*y)),
        Value::LessNumber(x, n) => applied(Op::Less, machine.slot(*x), Some(*n)),
        Value::Less(x, y) => applied(Op::Less, machine.slot(*x), machine.slot(*y)),
        Value::Equal(x, y) => applied(Op::Equal, machine.slot(*x), machine.slot(*y)),
        Value::Least(x, y) => least_operand(machine.slot(*x), machine.slot(*y)),
        Value::Word(a, x) => machine.word(*a, machine.slot(*x)),
        Value::WordAfter(a, x, n) => {
            let i = applied(Op::Add, machine.slot(*x), Some(*n));
            machine.word(*a, i)
        }
        Value::WordOfWord(a, b, x) => {
            let i = machine.word(*b, machine.slot(*x));
            machine.word(*a, i)
        }
        Value::LessWord(x, a, n) => {
            let word = machine.word(*a, Some(*n));
            applied(Op::Less, machine.slot(*x), word)
        }
        Value::LessWordAfter(x, a, y, n) => {
            let i = applied(Op::Add, machine.slot(*y), Some(*n));
            let word = machine.word(*a, i);
            applied(Op::Less, machine.slot(*x), word)
        }
        Value::Product(a, x, b, y) => {
            let first = machine.word(*a, machine.slot(*x));
            let second = machine.word(*b, machine.slot(*y));
            applied(Op::Mul, first, second)
        }
        Value::ProductOfWord(a, x, b, c, y) => {
            let first = machine.word(*a, machine.slot(*x));
            let i = machine.word(*c, machine.slot(*y));
            let second = machine.word(*b, i);
            applied(Op::Mul, first, second)
        }
        Value::Other(e) => value_in_place(machine, e),
    }
}

/// The same, without a call where no array is read.
#[inline(always)]
pub(crate) fn value_at(machine: &Machine, v: &Value) -> Option<u64>
    requires { Reads (variable_room machine.now) v.now }
    ensures { result ≡ value (erase_value v.now) (state_of machine.now) }
{
    match v {
        Value::Number(n) => Some(*n),
        Value::Variable(x) => machine.slot(*x),
        Value::AddNumber(x, n) => applied(Op::Add, machine.slot(*x), Some(*n)),
        Value::Add(x, y) => applied(Op::Add, machine.slot(*x), machine.slot(*y)),
        Value::LessNumber(x, n) => applied(Op::Less, machine.slot(*x), Some(*n)),
        Value::Less(x, y) => applied(Op::Less, machine.slot(*x), machine.slot(*y)),
        Value::Equal(x, y) => applied(Op::Equal, machine.slot(*x), machine.slot(*y)),
        Value::Least(x, y) => least_operand(machine.slot(*x), machine.slot(*y)),
        _ => value_apart(machine, v),
    }
}

/// The value of an operand of a statement that is itself a call. A variable or a number is read without one.
#[inline(always)]
pub(crate) fn operand_at(machine: &Machine, v: &Value) -> Option<u64>
    requires { Reads (variable_room machine.now) v.now }
    ensures { result ≡ value (erase_value v.now) (state_of machine.now) }
{
    match v {
        Value::Number(n) => Some(*n),
        Value::Variable(x) => machine.slot(*x),
        _ => value_apart(machine, v),
    }
}
