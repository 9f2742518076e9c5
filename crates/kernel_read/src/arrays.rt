// The names of arrays.
ghost use Rattle.std.specs.Prelude.{◌≡◌, ◌≤◌, ◌++◌, ℕ, codes, length};
ghost use Rattle.std.specs.Fmt.{decimal};
ghost use Rattle.kernel_code.specs.declared.syntax.Arr.{Arr as AnArray};
ghost use Rattle.kernel_print.specs.ArrayNames.{BeginsWithoutDigit, HasWords, IsWord};
ghost use Rattle.kernel_print.specs.Text.{array_text};
ghost use Rattle.kernel_read.specs.Reading.{AreWordsBoth, BeginsPlain, IsOfLevel, Reads};

use crate::digits::{name_at, numbered_at};
use crate::marks::behind_last;
use kernel_code::Arr;

/// The two numbers between these bytes at a place of a line, and the place behind them.
pub(crate) fn two_numbers_at(
    line: &[u8],
    at: usize,
    before: &[u8],
    between: &[u8],
    after: &[u8],
) -> Option<((u64, u64), usize)>
    requires within { at ≤ length line.now }
    requires parted { BeginsPlain between.now }
    requires plain { BeginsWithoutDigit after.now }
    ensures { Reads (ℕ × ℕ) (λ n. before.now ++ (decimal n.0 ++ (between.now ++ (decimal n.1 ++ after.now)))) AreWordsBoth
        line.now at result }
{
    let (first, at) = name_at(line, at, before)?;
    let (second, at) = numbered_at(line, at, between, after)?;
    Some(((first, second), at))
}

/// The workspace and the key whose array's name stands at a place of a line, and the place behind it.
fn key_at(line: &[u8], at: usize) -> Option<((u64, u64), usize)>
    requires { at ≤ length line.now }
    ensures { Reads (ℕ × ℕ) (λ n. codes "w" ++ (decimal n.0 ++ (codes "_key" ++ decimal n.1))) AreWordsBoth line.now at result }
{
    let (workspace, at) = name_at(line, at, b"w")?;
    let (key, at) = name_at(line, at, b"_key")?;
    Some(((workspace, key), at))
}

/// The tensor and the level whose array's name ends so, at a place of a line, and the place behind it.
fn level_at(line: &[u8], at: usize, kind: &[u8]) -> Option<((u64, u64), usize)>
    requires within { at ≤ length line.now }
    requires plain { BeginsWithoutDigit kind.now }
    ensures { Reads (ℕ × ℕ) (λ n. codes "T" ++ (decimal n.0 ++ (codes "_" ++ (decimal n.1 ++ kind.now)))) AreWordsBoth
        line.now at result }
{
    two_numbers_at(line, at, b"T", b"_", kind)
}

/// The array of a level whose name stands at a place of a line, and the place behind it.
fn level_array_at(line: &[u8], at: usize) -> Option<(Arr, usize)>
    requires { at ≤ length line.now }
    ensures { Reads AnArray array_text IsOfLevel line.now at result }
{
    if let Some(((tensor, level), next)) = level_at(line, at, b"_dim") {
        return Some((Arr::Dimension(tensor, level), next));
    }
    if let Some(((tensor, level), next)) = level_at(line, at, b"_pos") {
        return Some((Arr::Ends(tensor, level), next));
    }
    if let Some(((tensor, level), next)) = level_at(line, at, b"_crd") {
        return Some((Arr::Coordinates(tensor, level), next));
    }
    if let Some(((tensor, level), next)) = level_at(line, at, b"_wid") {
        return Some((Arr::Width(tensor, level), next));
    }
    None
}

/// The array whose name stands at a place of a line, and the place behind it.
pub(crate) fn array_at(line: &[u8], at: usize) -> Option<(Arr, usize)>
    requires { at ≤ length line.now }
    ensures { Reads AnArray array_text HasWords line.now at result }
{
    if let Some(next) = behind_last(line, at, b"range") {
        return Some((Arr::Range, next));
    }
    if let Some((tensor, next)) = numbered_at(line, at, b"T", b"_val") {
        return Some((Arr::Values(tensor), next));
    }
    if let Some((workspace, next)) = numbered_at(line, at, b"w", b"_val") {
        return Some((Arr::Sums(workspace), next));
    }
    if let Some((list, next)) = numbered_at(line, at, b"g", b"_crd") {
        return Some((Arr::ListCoordinates(list), next));
    }
    if let Some((list, next)) = numbered_at(line, at, b"g", b"_pos") {
        return Some((Arr::ListPositions(list), next));
    }
    if let Some(((workspace, key), next)) = key_at(line, at) {
        return Some((Arr::Key(workspace, key), next));
    }
    level_array_at(line, at)
}
