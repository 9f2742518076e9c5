// The symbols of a text.
ghost use Rattle.std.specs.Prelude.{◌≡◌, ◌<◌, ◌≤◌, ◌∷◌, ℕ, false, List, length, take, drop, MatchOption, IfOk};
ghost use Rattle.std.specs.Char.{is_ascii_digit};
ghost use Rattle.index_notation.specs.Tokens.{goes_on, behind_blanks, bytes_of, plus_before as plus_mark, mark_at, EachPasses, StopsAt};
ghost use Rattle.index_notation.specs.Tokens.{IsNext};
ghost use Rattle.lists.specs.Blanks.{is_blank};
ghost use Rattle.notation_grammar.specs.Symbols.{AreSymbols};
ghost use Rattle.index_notation.specs.declared.token.Token.{Token};

use index_notation::{Mark, Name, Token};
use notation_grammar::{PlacedSymbol, Symbol};
use std::alloc::{AllocError, Global};
use trees::Items;

/// What stands behind the blanks at a text's front.
fn skip_blanks(text: &[u8]) -> &[u8]
    ensures { result.now ≡ behind_blanks text.now }
{
    for (i, byte) in text.iter().enumerate() {
        if *byte != b' ' && *byte != b'\t' {
            return &text[i..];
        }
    }
    &text[text.len()..]
}

/// Whether a name goes on with this byte.
fn goes_on_in_name(byte: u8) -> bool
    ensures { result ≡ goes_on byte }
{
    byte.is_ascii_alphanumeric() || byte == b'_'
}

/// How many bytes at a text's front are such as a name goes on with.
fn name_length(text: &[u8]) -> usize
    ensures within { result ≤ length text.now }
    ensures each { EachPasses goes_on (take result text.now) }
    ensures stops { StopsAt goes_on (drop result text.now) }
{
    for (i, byte) in text.iter().enumerate() {
        if !goes_on_in_name(*byte) {
            return i;
        }
    }
    text.len()
}

/// How many digits stand at a text's front.
fn number_length(text: &[u8]) -> usize
    ensures within { result ≤ length text.now }
    ensures each { EachPasses is_ascii_digit (take result text.now) }
    ensures stops { StopsAt is_ascii_digit (drop result text.now) }
{
    for (i, byte) in text.iter().enumerate() {
        if !byte.is_ascii_digit() {
            return i;
        }
    }
    text.len()
}

/// The mark behind whose `+` a text stands.
fn plus_before(text: &[u8]) -> Mark
    ensures { result ≡ plus_mark text.now }
{
    match text.split_first() {
        Some((byte, _)) if *byte == b'=' => Mark::PlusEquals,
        _ => Mark::Plus,
    }
}

/// The mark at the front of a text, taken as long as possible.
fn mark_of(text: &[u8]) -> Option<Mark>
    ensures { result ≡ mark_at text.now }
{
    let Some((first, behind)) = text.split_first() else {
        return None;
    };
    match *first {
        b'=' => Some(Mark::Equals),
        b'+' => Some(plus_before(behind)),
        b'-' => Some(Mark::Minus),
        b'*' => Some(Mark::Times),
        b'(' => Some(Mark::Open),
        b')' => Some(Mark::Close),
        b',' => Some(Mark::Comma),
        _ => None,
    }
}

/// The number of bytes of a mark.
fn mark_length(mark: Mark) -> usize
    ensures { result ≡ length (bytes_of mark) }
{
    match mark {
        Mark::PlusEquals => 2,
        _ => 1,
    }
}

/// The token at the front of a text that begins with no blank, and the number of its bytes.
#[tactic(auto, using(crate::proofs::Marks::mark_stands, crate::proofs::Marks::no_token, crate::proofs::Bytes::no_blank_first))]
fn front_token(alloc: Global, first: u8, text: &[u8]) -> Result<Option<(Token, usize)>, AllocError>
    requires front { (rest : List ℕ) × (text.now ≡ first ∷ rest) }
    requires no_blank { is_blank first ≡ false }
    ensures { IfOk result (λ front. MatchOption front
        ((token : Token) (rest : List ℕ) → IsNext text.now token rest → ⊥)
        (λ found. (0 < found.1) × (found.1 ≤ length text.now) × IsNext text.now found.0 (drop found.1 text.now))) }
{
    if first.is_ascii_alphabetic() {
        let used = name_length(text);
        let bytes = Items::from_slice(alloc, &text[..used])?;
        Ok(Some((Token::Name(Name { bytes }), used)))
    } else if first.is_ascii_digit() {
        let used = number_length(text);
        let digits = Items::from_slice(alloc, &text[..used])?;
        Ok(Some((Token::Number(digits), used)))
    } else {
        match mark_of(text) {
            Some(mark) => Ok(Some((Token::Mark(mark), mark_length(mark)))),
            None => Ok(None),
        }
    }
}

/// The symbols of a text: its tokens, and then its end or the first byte that begins none.
pub fn symbols_of(alloc: Global, text: &[u8]) -> Result<Items<PlacedSymbol>, AllocError>
    ensures { IfOk result (λ symbols. AreSymbols (length text.now) text.now symbols) }
{
    let mut symbols = Items::new(alloc);
    let mut rest = skip_blanks(text);
    while let Some((first, _)) = rest.split_first() {
        let at = text.len() - rest.len();
        match front_token(alloc, *first, rest)? {
            Some((token, used)) => {
                let symbol = Symbol::Lexeme(token);
                symbols.push(PlacedSymbol { symbol, at })?;
                rest = skip_blanks(&rest[used..]);
            }
            None => {
                let symbol = Symbol::Stray;
                symbols.push(PlacedSymbol { symbol, at })?;
                return Ok(symbols);
            }
        }
    }
    let symbol = Symbol::End;
    let at = text.len();
    symbols.push(PlacedSymbol { symbol, at })?;
    Ok(symbols)
}
