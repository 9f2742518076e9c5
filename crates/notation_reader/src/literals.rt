// The numbers that may be written.
ghost use Rattle.std.specs.Prelude.{◌≡◌, ◌<◌, ◌≤◌, nat_lt, MatchOption};
ghost use Rattle.limits.specs.Limits.{greatest_literal};
ghost use Rattle.notation_grammar.specs.Faults.{number_of, value_after};

use index_notation::Token;
use notation_grammar::Symbol;

/// The number that digits write. None where it is above those that may be written.
fn value_of(digits: &[u8]) -> Option<u64>
    ensures { MatchOption result (greatest_literal < value_after 0 digits.now)
        (λ value. (value ≡ value_after 0 digits.now) × (value ≤ greatest_literal)) }
{
    let mut value: u64 = 0;
    for digit in digits {
        let next = value as u128 * 10 + digit.saturating_sub(b'0') as u128;
        if next > limits::greatest_literal_of_expression() as u128 {
            return None;
        }
        value = next as u64;
    }
    Some(value)
}

/// Whether a symbol is a number above those that may be written.
pub fn is_past_literals(symbol: &Symbol) -> bool
    ensures { result ≡ nat_lt greatest_literal (number_of symbol.now) }
{
    match symbol {
        Symbol::Lexeme(Token::Number(digits)) => value_of(digits.as_slice()).is_none(),
        _ => false,
    }
}

/// The number that a symbol is.
pub fn number(symbol: &Symbol) -> u64
    requires { number_of symbol.now ≤ greatest_literal }
    ensures { result ≡ number_of symbol.now }
{
    match symbol {
        Symbol::Lexeme(Token::Number(digits)) => value_of(digits.as_slice()).unwrap_or(0),
        _ => 0,
    }
}
