//! The entry lines of a file.
ghost use Rattle.std.specs.Prelude.{◌≡◌, ◌++◌, ◌∷◌, [], true, OnOk, Some};
ghost use Rattle.mtx_io.specs.Banner.{needs_minus};
ghost use Rattle.mtx_io.specs.Due.{slot_with};
ghost use Rattle.mtx_io.specs.Entry.{index_of, word_from, value_of, place_at, place_from, entry_of, entry_of_one, entry_of_two};
ghost use Rattle.mtx_io.specs.Entry.{entry_of_three};
ghost use Rattle.mtx_io.specs.Entry.{entries_by, coords_of, index_from, placed};
ghost use Rattle.mtx_io.specs.Fields.{one_token as one, two_tokens as two, three_tokens as three};
ghost use Rattle.mtx_io.specs.Progress.{IsMatrixOrder};
ghost use Rattle.text_lines.specs.Tokens.{tokens};

use crate::banner::Symmetry;
use crate::fields::{one_token, three_tokens, two_tokens};
use crate::header::Header;
use crate::place::{Place, PlacedValue, PlainLine};
use limits::greatest_coordinate_in_file;
use numbers::Semiring;
use std::alloc::AllocError;
use tensor_map::Entries;
use text_lines::{LineKind, NumFault, read_index, read_whole};

/// A row or a column of so many, counted from 0: the token counts from 1.
fn read_index_in(token: &[u8], size: u64) -> Result<u64, LineKind>
    ensures { result ≡ index_of size token.now }
{
    match read_index(token, greatest_coordinate_in_file()) {
        Ok(0) => Err(LineKind::ZeroCoordinate),
        Ok(index) if index <= size => Ok(index - 1),
        Ok(_) => Err(LineKind::CoordRange),
        Err(NumFault::NumRange) => Err(LineKind::NumRange),
        Err(_) => Err(LineKind::NotNumber),
    }
}

/// The word of a number. Where values have no sign, none is below 0.
#[inline(always)]
fn word(number: i64, signed: bool) -> Result<u64, LineKind>
    ensures { result ≡ word_from signed number }
{
    if signed || number >= 0 {
        Ok(numbers::unsigned(number))
    } else {
        Err(LineKind::Negative)
    }
}

/// A value as a word: the token is a whole number of 64 bits with a sign.
fn read_value(token: &[u8], signed: bool) -> Result<u64, LineKind>
    ensures { result ≡ value_of signed token.now }
{
    match read_whole(token) {
        Ok(number) => word(number, signed),
        Err(NumFault::NotNumber) => Err(LineKind::NotNumber),
        Err(NumFault::NotWhole) => Err(LineKind::NotWhole),
        Err(NumFault::NumRange) => Err(LineKind::NumRange),
    }
}

/// The place of this row and column: of a skew-symmetric matrix it isn't on the diagonal.
#[inline(always)]
fn place_in(symmetry: Symmetry, row: u64, column: u64) -> Result<Place, LineKind>
    ensures { result ≡ place_at symmetry row column }
{
    if symmetry.needs_minus() && row == column {
        Err(LineKind::SkewDiagonal)
    } else {
        Ok(Place { row, column })
    }
}

/// The place of the row and the column that these tokens tell.
fn read_place(header: &Header, row: &[u8], column: &[u8]) -> Result<Place, LineKind>
    ensures { result ≡ place_from header.now.symmetry (index_of header.now.rows row.now) (index_of header.now.columns column.now) }
{
    let row = read_index_in(row, header.rows)?;
    let column = read_index_in(column, header.columns)?;
    place_in(header.symmetry, row, column)
}

/// A row or a column of so many, counted from 0: the number counts from 1.
#[inline(always)]
fn index_in(number: u64, size: u64) -> Result<u64, LineKind>
    ensures { result ≡ index_from size (Some number) }
{
    if number == 0 {
        Err(LineKind::ZeroCoordinate)
    } else if number > greatest_coordinate_in_file() {
        Err(LineKind::NumRange)
    } else if number > size {
        Err(LineKind::CoordRange)
    } else {
        Ok(number - 1)
    }
}

/// What a line that was read to numbers tells.
#[inline(always)]
pub(crate) fn entry_of_numbers(
    header: &Header,
    plain: PlainLine,
    signed: bool,
) -> Result<PlacedValue, LineKind>
    ensures { result ≡ placed
        (place_from header.now.symmetry (index_from header.now.rows (Some plain.row)) (index_from header.now.columns (Some plain.column)))
        (word_from signed plain.value) }
{
    let row = index_in(plain.row, header.rows)?;
    let column = index_in(plain.column, header.columns)?;
    let place = place_in(header.symmetry, row, column)?;
    let value = word(plain.value, signed)?;
    Ok(PlacedValue { place, value })
}

/// What the tokens of a line that has a row, a column and a value tell.
fn read_full_entry(header: &Header, line: &[u8], signed: bool) -> Result<PlacedValue, LineKind>
    ensures { result ≡ entry_of_three signed header.now (three (tokens line.now)) }
{
    let Some((row, column, value)) = three_tokens(line) else {
        return Err(LineKind::Fields);
    };
    let place = read_place(header, row, column)?;
    let value = read_value(value, signed)?;
    Ok(PlacedValue { place, value })
}

/// What a line that has the row and the column of an entry of this value tells.
fn read_entry_of(header: &Header, value: u64, line: &[u8]) -> Result<PlacedValue, LineKind>
    ensures { result ≡ entry_of_two header.now value (two (tokens line.now)) }
{
    let Some((row, column)) = two_tokens(line) else {
        return Err(LineKind::Fields);
    };
    let place = read_place(header, row, column)?;
    Ok(PlacedValue { place, value })
}

/// What the line of an entry tells, whose value is known or stands there too.
pub(crate) fn read_entry(
    header: &Header,
    value: Option<u64>,
    line: &[u8],
    signed: bool,
) -> Result<PlacedValue, LineKind>
    ensures { result ≡ entry_of signed header.now (slot_with value) (tokens line.now) }
{
    match value {
        None => read_full_entry(header, line, signed),
        Some(value) => read_entry_of(header, value, line),
    }
}

/// What a line that has the value at this place tells.
pub(crate) fn read_value_at(
    place: Place,
    line: &[u8],
    signed: bool,
) -> Result<PlacedValue, LineKind>
    ensures { result ≡ entry_of_one signed place (one (tokens line.now)) }
{
    let Some(token) = one_token(line) else {
        return Err(LineKind::Fields);
    };
    let value = read_value(token, signed)?;
    Ok(PlacedValue { place, value })
}

/// Appends the value at a row and a column: in a tensor of order 1 the row is the coordinate.
#[inline(always)]
fn push_at(entries: &mut Entries, row: u64, column: u64, value: u64) -> Result<(), AllocError>
    requires { IsMatrixOrder entries.old.order }
    ensures order { entries.new.order ≡ entries.old.order }
    ensures ok { OnOk result
        (entries.new.list ≡ entries.old.list ++ record { coords = coords_of entries.old.order row column; value = value } ∷ []) }
{
    if entries.order() == 1 {
        entries.push(&[row], value)
    } else {
        entries.push(&[row, column], value)
    }
}

/// The value negated, as `S` says, where it has a minus.
fn negated<S: Semiring>(value: u64) -> u64
    requires { S.has_minus ≡ true }
    ensures { result ≡ S.arithmetic.times S.arithmetic.minus_one value }
{
    S::times(S::minus_one().unwrap(), value)
}

/// Appends the entry that a line tells, and its mirror image, if it has one.
#[inline(always)]
pub(crate) fn push_entries<S: Semiring>(
    entries: &mut Entries,
    symmetry: Symmetry,
    told: PlacedValue,
) -> Result<(), AllocError>
    requires order { IsMatrixOrder entries.old.order }
    requires minus { needs_minus symmetry ≡ true → S.has_minus ≡ true }
    ensures order { entries.new.order ≡ entries.old.order }
    ensures ok { OnOk result (entries.new.list ≡ entries.old.list ++ entries_by S.arithmetic symmetry entries.old.order told) }
{
    let Place { row, column } = told.place;
    push_at(entries, row, column, told.value)?;
    match symmetry {
        Symmetry::General => Ok(()),
        Symmetry::Symmetric if row == column => Ok(()),
        Symmetry::Symmetric => push_at(entries, column, row, told.value),
        Symmetry::SkewSymmetric => push_at(entries, column, row, negated::<S>(told.value)),
    }
}
