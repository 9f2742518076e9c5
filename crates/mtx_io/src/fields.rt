//! The tokens of a line that has just so many.
ghost use Rattle.std.specs.Prelude.{◌≡◌, None, Some, MatchOption};
ghost use Rattle.mtx_io.specs.Fields.{one_token as one, two_tokens as two, three_tokens as three, five_tokens as five};
ghost use Rattle.text_lines.specs.Tokens.{tokens};

use text_lines::cut_token;

/// The token of a line that has no other.
pub(crate) fn one_token(line: &[u8]) -> Option<&[u8]>
    ensures { MatchOption result (one (tokens line.now) ≡ None) (λ t. one (tokens line.now) ≡ Some t.now) }
{
    let (first, rest) = cut_token(line)?;
    match cut_token(rest) {
        Some(_) => None,
        None => Some(first),
    }
}

/// The two tokens of a line that has no other.
pub(crate) fn two_tokens(line: &[u8]) -> Option<(&[u8], &[u8])>
    ensures { MatchOption result (two (tokens line.now) ≡ None) (λ t. two (tokens line.now) ≡ Some (t.0.now, t.1.now)) }
{
    let (first, rest) = cut_token(line)?;
    let second = one_token(rest)?;
    Some((first, second))
}

/// The three tokens of a line that has no other.
pub(crate) fn three_tokens(line: &[u8]) -> Option<(&[u8], &[u8], &[u8])>
    ensures { MatchOption result (three (tokens line.now) ≡ None) (λ t. three (tokens line.now) ≡ Some (t.0.now, t.1.now, t.2.now)) }
{
    let (first, rest) = cut_token(line)?;
    let (second, third) = two_tokens(rest)?;
    Some((first, second, third))
}

/// The five tokens of a line that has no other.
pub(crate) fn five_tokens(line: &[u8]) -> Option<(&[u8], &[u8], &[u8], &[u8], &[u8])>
    ensures { MatchOption result (five (tokens line.now) ≡ None)
        (λ t. five (tokens line.now) ≡ Some (t.0.now, t.1.now, t.2.now, t.3.now, t.4.now)) }
{
    let (first, rest) = cut_token(line)?;
    let (second, rest) = cut_token(rest)?;
    let (third, fourth, fifth) = three_tokens(rest)?;
    Some((first, second, third, fourth, fifth))
}
