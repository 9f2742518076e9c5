// Operators of two words, with the blanks around them.
ghost use Rattle.std.specs.Prelude.{◌≡◌, ◌≤◌, ◌++◌, ℕ, List, Some, length, drop};
ghost use Rattle.kernel_code.specs.declared.syntax.Op.{Op as WordOp};
ghost use Rattle.kernel_print.specs.Text.{operator_text};
ghost use Rattle.kernel_read.specs.Reading.{operator_told};

use crate::marks::rest_at;
use kernel_code::Op;

/// An operator with the blanks around it.
pub(crate) fn operator(op: Op) -> &'static [u8]
    ensures { result.now ≡ operator_text op }
{
    match op {
        Op::Add => b" + ",
        Op::Sub => b" - ",
        Op::Mul => b" * ",
        Op::BitAnd => b" & ",
        Op::Less => b" < ",
        Op::Equal => b" == ",
        Op::NotEqual => b" != ",
        Op::And => b" && ",
        Op::Or => b" || ",
    }
}

/// The operator with this byte behind the blank, and that byte behind it.
fn operator_by(sign: u8, next: u8) -> Option<Op>
    ensures { result ≡ operator_told sign next }
{
    match sign {
        b'+' => Some(Op::Add),
        b'-' => Some(Op::Sub),
        b'*' => Some(Op::Mul),
        b'<' => Some(Op::Less),
        b'=' => Some(Op::Equal),
        b'!' => Some(Op::NotEqual),
        b'|' => Some(Op::Or),
        b'&' if next == b'&' => Some(Op::And),
        b'&' => Some(Op::BitAnd),
        _ => None,
    }
}

/// The operator that may stand at a place of a line: no other does.
pub(crate) fn operator_at(line: &[u8], at: usize) -> Option<Op>
    requires { at ≤ length line.now }
    ensures { (op : WordOp) (rest : List ℕ) → drop at line.now ≡ operator_text op ++ rest → result ≡ Some op }
{
    match rest_at(line, at) {
        [_, sign, next, ..] => operator_by(*sign, *next),
        _ => None,
    }
}
