// Bytes that stand at a place of a line.
ghost use Rattle.std.specs.Prelude.{◌≡◌, ◌≤◌, ◌++◌, ℕ, List, true, false, length, drop, MatchOption};
ghost use Rattle.kernel_print.specs.ArrayNames.{BeginsWithoutDigit};
ghost use Rattle.kernel_read.specs.Reading.{Stands};

/// What stands in a line from a place of it on.
pub(crate) fn rest_at(line: &[u8], at: usize) -> &[u8]
    requires { at ≤ length line.now }
    ensures { result.now ≡ drop at line.now }
{
    &line[at..]
}

/// Where the line goes on behind these bytes, if they stand at a place of it.
pub(crate) fn behind(line: &[u8], at: usize, bytes: &[u8]) -> Option<usize>
    requires { at ≤ length line.now }
    ensures { MatchOption result ((rest : List ℕ) → drop at line.now ≡ bytes.now ++ rest → ⊥)
        (Stands line.now at bytes.now) }
{
    if rest_at(line, at).starts_with(bytes) {
        Some(at + bytes.len())
    } else {
        None
    }
}

/// Whether no digit stands at a place of a line.
fn is_end(line: &[u8], at: usize) -> bool
    requires { at ≤ length line.now }
    ensures yes { result ≡ true → BeginsWithoutDigit (drop at line.now) }
    ensures no { result ≡ false → BeginsWithoutDigit (drop at line.now) → ⊥ }
{
    match rest_at(line, at).split_first() {
        Some((byte, _)) => !byte.is_ascii_digit(),
        None => true,
    }
}

/// Where the line goes on behind these bytes, if they stand at a place of it, and no digit behind them.
pub(crate) fn behind_last(line: &[u8], at: usize, bytes: &[u8]) -> Option<usize>
    requires { at ≤ length line.now }
    ensures { MatchOption result
        ((rest : List ℕ) → BeginsWithoutDigit rest → drop at line.now ≡ bytes.now ++ rest → ⊥)
        (λ next. Stands line.now at bytes.now next × BeginsWithoutDigit (drop next line.now)) }
{
    let next = behind(line, at, bytes)?;
    if is_end(line, next) { Some(next) } else { None }
}
