ghost use Rattle.std.specs.Prelude.{◌≡◌, ◌<◌, [], ◌∷◌, length, drop, MatchOption};
ghost use Rattle.std.specs.List.{position};
ghost use Rattle.std.specs.Str.Lines.{strip_carriage_return};
ghost use Rattle.text_lines.specs.Lines.{is_line_feed, lines};
ghost use Rattle.text_lines.specs.TokenLaws.{is_filled};
ghost use Rattle.text_lines.specs.Tokens.{tokens};
ghost use Rattle.lists.specs.Blanks.{is_blank as blank};

/// The first line of a text without its end, and what stands behind that end; nothing where the text is empty.
pub fn cut_line(text: &[u8]) -> Option<(&[u8], &[u8])>
    ensures first { MatchOption result (lines text.now ≡ []) (λ cut. lines text.now ≡ cut.0.now ∷ lines cut.1.now) }
    ensures shorter { MatchOption result (text.now ≡ []) (λ cut. length cut.1.now < length text.now) }
{
    if text.is_empty() {
        return None;
    }
    let end = line_feed(text).unwrap_or(text.len());
    let (line, behind) = text.split_at(end);
    Some((without_return(line), behind_first(behind)))
}

/// Where the first line feed stands.
pub(crate) fn line_feed(text: &[u8]) -> Option<usize>
    ensures { result ≡ position is_line_feed text.now }
{
    text.iter().position(|byte| *byte == b'\n')
}

/// The line without the carriage return at its end, if it has one.
#[inline(always)]
pub(crate) fn without_return(line: &[u8]) -> &[u8]
    ensures { result.now ≡ strip_carriage_return line.now }
{
    match line {
        [front @ .., b'\r'] => front,
        _ => line,
    }
}

/// The bytes but for the first, if there is one.
pub(crate) fn behind_first(bytes: &[u8]) -> &[u8]
    ensures { result.now ≡ drop 1 bytes.now }
{
    match bytes {
        [_, rest @ ..] => rest,
        _ => bytes,
    }
}

/// Whether the byte is a space or a tab.
pub fn is_blank(byte: u8) -> bool
    ensures { result ≡ blank byte }
{
    byte == b' ' || byte == b'\t'
}

/// The first token of a line, and what stands behind it; nothing where the line has no token.
pub fn cut_token(line: &[u8]) -> Option<(&[u8], &[u8])>
    ensures { MatchOption result (tokens line.now ≡ []) (λ cut. tokens line.now ≡ cut.0.now ∷ tokens cut.1.now) }
{
    match first_filled(line) {
        None => None,
        Some(start) => {
            let line = &line[start..];
            let end = first_blank(line).unwrap_or(line.len());
            Some(line.split_at(end))
        }
    }
}

/// Where the first byte stands that isn't a blank.
fn first_filled(line: &[u8]) -> Option<usize>
    ensures { result ≡ position is_filled line.now }
{
    line.iter().position(|byte| !is_blank(*byte))
}

/// Where the first blank stands.
fn first_blank(line: &[u8]) -> Option<usize>
    ensures { result ≡ position blank line.now }
{
    line.iter().position(|byte| is_blank(*byte))
}
