// Reads the lines of a `.tns` file one by one.
ghost use Rattle.std.specs.Prelude.{◌≡◌, ◌+◌, ◌↔◌, [], Bool, false, Err, IfErr, IfSome, IsTrue, OnOk, MatchResult, length};
ghost use Rattle.text_lines.specs.Cutting.{is_long};
ghost use Rattle.text_lines.specs.Plain.{AreNumbers};
ghost use Rattle.text_lines.specs.Tokens.{tokens};
ghost use Rattle.tns_io.specs.Fields.{AreCoordinates, IsEntry, IsEntryOf, IsReading, fields_of};
ghost use Rattle.tns_io.specs.Reading.{coordinate_of, entry_of, is_comment as is_comment_token, reading, value_of};
ghost use Rattle.tns_io.specs.Reading.{word_from};
ghost use Rattle.tns_io.specs.ReadSoFar.{Fails, Takes};

use crate::file_fault::FileFault;
use crate::plain_lines::entry_of_numbers;
use tensor_map::Entries;
use text_lines::{LineKind, NumFault, cut_token, read_index, read_whole};

/// The greatest order of a tensor.
pub(crate) const GREATEST_ORDER: usize = 6;

/// Reads a line, whose value may have a sign or none, and appends its entry, if it is one.
#[tactic(auto, unfolding(limits::specs::Limits::greatest_order))]
pub(crate) fn take_line(
    line: &[u8],
    number: u64,
    signed: bool,
    entries: &mut Entries,
) -> Result<(), FileFault>
    requires { is_long line.now ≡ false }
    ensures order { entries.new.order ≡ entries.old.order }
    ensures takes { OnOk result (Takes (reading signed entries.old.order line.now) entries.old.list entries.new.list) }
    ensures fails { IfErr result (Fails number (reading signed entries.old.order line.now)) }
{
    let mut numbers = [0; GREATEST_ORDER];
    let coords = &mut numbers[..entries.order()];
    match read_line(line, signed, coords) {
        Ok(None) => Ok(()),
        Ok(Some(value)) => match entries.push(coords, value) {
            Ok(()) => Ok(()),
            Err(error) => Err(FileFault::Memory(error)),
        },
        Err(kind) => Err(FileFault::Line { line: number, kind }),
    }
}

/// Takes a line as `take_line` does. Where `value` is told, it is that of the line's last token, and `numbers` are those of the others:
/// coordinates of the entry take their place.
#[inline(always)]
pub(crate) fn take_read_line(
    line: &[u8],
    value: Option<i64>,
    numbers: &mut [u64],
    number: u64,
    signed: bool,
    entries: &mut Entries,
) -> Result<(), FileFault>
    requires short { is_long line.now ≡ false }
    requires order { length numbers.old ≡ entries.old.order }
    requires numbers { IfSome value (AreNumbers (tokens line.now) numbers.old) }
    ensures order { entries.new.order ≡ entries.old.order }
    ensures takes { OnOk result (Takes (reading signed entries.old.order line.now) entries.old.list entries.new.list) }
    ensures fails { IfErr result (Fails number (reading signed entries.old.order line.now)) }
{
    if let Some(value) = value {
        if let Some(word) = entry_of_numbers(value, signed, numbers) {
            return match entries.push(numbers, word) {
                Ok(()) => Ok(()),
                Err(error) => Err(FileFault::Memory(error)),
            };
        }
    }
    // A fault of its own, so that lines that are read above needn't look for one.
    match take_line(line, number, signed, entries) {
        Ok(()) => Ok(()),
        Err(fault) => Err(fault),
    }
}

/// Reads a line: the coordinates of an entry into `coords`, and its value. None where the line is skipped.
fn read_line(line: &[u8], signed: bool, coords: &mut [u64]) -> Result<Option<u64>, LineKind>
    requires { is_long line.now ≡ false }
    ensures { IsReading (reading signed (length coords.old) line.now) coords.new result }
{
    let Some((token, _)) = cut_token(line) else {
        return Ok(None);
    };
    if is_comment(token) {
        return Ok(None);
    }
    match read_fields(line, signed, coords) {
        Ok(value) => Ok(Some(value)),
        Err(kind) => Err(kind),
    }
}

/// Whether a line that begins with this token is a comment.
fn is_comment(token: &[u8]) -> bool
    ensures { result ≡ is_comment_token token.now }
{
    matches!(token, [b'#', ..])
}

/// Reads the entry of a line. The number of its tokens is looked at first.
fn read_fields(line: &[u8], signed: bool, coords: &mut [u64]) -> Result<u64, LineKind>
    ensures { IsEntry (fields_of signed (length coords.old) (tokens line.now)) coords.new result }
{
    match read_tokens(line, signed, coords) {
        Ok(value) => Ok(value),
        Err(kind) if has_fields(line, coords.len()) => Err(kind),
        Err(_) => Err(LineKind::Fields),
    }
}

/// Whether a line has a token for each of so many coordinates and one for the value.
fn has_fields(line: &[u8], coordinates: usize) -> bool
    ensures { IsTrue result ↔ (length (tokens line.now) ≡ coordinates + 1) }
{
    let mut rest = line;
    for _ in 0..coordinates {
        let Some((_, behind)) = cut_token(rest) else {
            return false;
        };
        rest = behind;
    }
    has_one_token(rest)
}

/// Whether a line has one token.
fn has_one_token(line: &[u8]) -> bool
    ensures { IsTrue result ↔ (length (tokens line.now) ≡ 1) }
{
    match cut_token(line) {
        Some((_, behind)) => cut_token(behind).is_none(),
        None => false,
    }
}

/// Reads the entry of a line that has a token for each coordinate and one for the value.
fn read_tokens(line: &[u8], signed: bool, coords: &mut [u64]) -> Result<u64, LineKind>
    ensures { IsEntryOf signed (length coords.old) (tokens line.now) coords.new result }
{
    match read_coordinates(line, coords) {
        Ok(rest) => read_only_value(rest, signed),
        Err(kind) => Err(kind),
    }
}

/// Reads a line's coordinates into `coords`, and answers what stands behind them.
fn read_coordinates<'a>(line: &'a [u8], coords: &mut [u64]) -> Result<&'a [u8], LineKind>
    ensures { MatchResult result (λ rest. AreCoordinates (length coords.old) (tokens line.now) coords.new (tokens rest.now))
        (λ kind. (signed : Bool) → length (tokens line.now) ≡ length coords.old + 1 → entry_of signed (tokens line.now) ≡ Err kind) }
{
    let mut rest = line;
    for coordinate in coords.iter_mut() {
        let Some((token, behind)) = cut_token(rest) else {
            return Err(LineKind::Fields);
        };
        *coordinate = read_coordinate(token)?;
        rest = behind;
    }
    Ok(rest)
}

/// Reads the value of a line of which one token is left.
fn read_only_value(rest: &[u8], signed: bool) -> Result<u64, LineKind>
    ensures { IsEntryOf signed 0 (tokens rest.now) [] result }
{
    let Some((token, behind)) = cut_token(rest) else {
        return Err(LineKind::Fields);
    };
    if cut_token(behind).is_some() {
        return Err(LineKind::Fields);
    }
    read_value(token, signed)
}

/// The coordinate of a token, counted from 0: the file counts from 1.
fn read_coordinate(token: &[u8]) -> Result<u64, LineKind>
    ensures { result ≡ coordinate_of token.now }
{
    match read_index(token, limits::greatest_coordinate_in_file()) {
        Ok(0) => Err(LineKind::ZeroCoordinate),
        Ok(number) => Ok(number - 1),
        Err(NumFault::NumRange) => Err(LineKind::NumRange),
        Err(_) => Err(LineKind::NotNumber),
    }
}

/// The word of a number. Where values have no sign, none is below 0.
pub(crate) fn word(number: i64, signed: bool) -> Result<u64, LineKind>
    ensures { result ≡ word_from signed number }
{
    if signed || number >= 0 {
        Ok(numbers::unsigned(number))
    } else {
        Err(LineKind::Negative)
    }
}

/// The value of a token, as a word.
fn read_value(token: &[u8], signed: bool) -> Result<u64, LineKind>
    ensures { result ≡ value_of signed token.now }
{
    match read_whole(token) {
        Ok(number) => word(number, signed),
        Err(NumFault::NotNumber) => Err(LineKind::NotNumber),
        Err(NumFault::NotWhole) => Err(LineKind::NotWhole),
        Err(NumFault::NumRange) => Err(LineKind::NumRange),
    }
}
