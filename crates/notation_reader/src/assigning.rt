//! What the mark behind the left side says.
ghost use Rattle.std.specs.Prelude.{◌≡◌};
ghost use Rattle.notation_grammar.specs.Faults.{symbols_of};
ghost use Rattle.notation_reader.specs.Assigning.{assigns as assigns_by, accumulates as accumulates_by};

use index_notation::{Mark, Token};
use notation_grammar::{PlacedSymbol, Symbol};

/// Whether a symbol adds to the old tensor, if it is the mark.
fn assigns(symbol: &Symbol) -> Option<bool>
    ensures { result ≡ assigns_by symbol.now }
{
    match symbol {
        Symbol::Lexeme(Token::Mark(Mark::Equals)) => Some(false),
        Symbol::Lexeme(Token::Mark(Mark::PlusEquals)) => Some(true),
        _ => None,
    }
}

/// Whether the first mark of these symbols is `+=`.
pub fn accumulates(symbols: &[PlacedSymbol]) -> bool
    ensures { result ≡ accumulates_by (symbols_of symbols.now) }
{
    for placed in symbols {
        if let Some(accumulates) = assigns(&placed.symbol) {
            return accumulates;
        }
    }
    false
}
