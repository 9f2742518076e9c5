//! The entry lines that are still due.
ghost use Rattle.std.specs.Prelude.{◌≡◌, ◌<◌, ◌-◌, ◌^◌, [], ◌∷◌, drop, IfSome, MatchOption};
ghost use Rattle.mtx_io.specs.Due.{IsWithin, places_left, is_nothing, slot_with};
ghost use Rattle.mtx_io.specs.Matrix.{entry_due};
ghost use Rattle.mtx_io.specs.Places.{first_row, columns_from};
ghost use Rattle.mtx_io.specs.Plain.{full_due};
ghost use Rattle.mtx_io.specs.Fields.{two_tokens as two, three_tokens as three};
ghost use Rattle.mtx_io.specs.Size.{header_of, number_to, size_of, coordinate_size, array_size};
ghost use Rattle.text_lines.specs.Tokens.{tokens};

use crate::banner::{Banner, Layout, Symmetry};
use crate::entry::{read_entry, read_value_at};
use crate::fields::{three_tokens, two_tokens};
use crate::header::Header;
use crate::place::{Place, PlacedValue};
use limits::{greatest_entries_of_matrix, greatest_size_of_matrix};
use std::marker::Model;
use text_lines::{LineKind, read_index};

/// What is still due.
#[derive(Clone, Copy, Debug)]
pub(crate) enum Due {
    /// So many entries, each on a line that tells its place, and its value where this isn't it.
    Entries { count: u64, value: Option<u64> },
    /// The values of an array, of which the next stands at this place, if any is left.
    Values(Option<Place>),
}

/// The entry lines that are still due, and what is known of the matrix.
#[derive(Drop)]
pub(crate) struct EntryLines {
    header: Header,
    due: Due,
}

impl Model for EntryLines {
    ghost use Rattle.mtx_io.specs.Due.{slots_of, IsInside};
    ghost use Rattle.mtx_io.specs.Size.{Sized};

    ghost Value = { Sized };

    ghost view = { λ e. record { header = e.header; slots = slots_of e.header e.due } };

    ghost invariant = { λ e. IsInside e.header e.due };
}

/// The first row of a column that an array tells. Above the last column it may be any.
fn first_row_of(symmetry: Symmetry, column: u64) -> u64
    ensures { column < 2 ^ 64 - 1 → result ≡ first_row symmetry column }
{
    match symmetry {
        Symmetry::General => 0,
        Symmetry::Symmetric => column,
        Symmetry::SkewSymmetric => column.saturating_add(1),
    }
}

/// The first place of an array from this column on, if one is left.
fn first_from_column(header: &Header, column: u64) -> Option<Place>
    ensures { MatchOption result (columns_from header.now.symmetry header.now.rows column (header.now.columns - column) ≡ [])
        (λ place. IsWithin header.now place
        × (columns_from header.now.symmetry header.now.rows column (header.now.columns - column) ≡ places_left header.now place)) }
{
    if column >= header.columns {
        return None;
    }
    let row = first_row_of(header.symmetry, column);
    if row < header.rows {
        Some(Place { row, column })
    } else {
        None
    }
}

/// The place behind this one, if one is left.
fn place_behind(header: &Header, place: Place) -> Option<Place>
    requires { IsWithin header.now place }
    ensures { MatchOption result (places_left header.now place ≡ place ∷ [])
        (λ next. IsWithin header.now next × (places_left header.now place ≡ place ∷ places_left header.now next)) }
{
    let rows = header.rows;
    let columns = header.columns;
    let row = place.row + 1;
    if row < rows {
        Some(Place {
            row,
            column: place.column,
        })
    } else if place.column + 1 < columns {
        first_from_column(header, place.column + 1)
    } else {
        None
    }
}

/// The sizes of a matrix. None where a token is no size, or where they don't go with the symmetry or the order.
fn read_sizes(order: usize, symmetry: Symmetry, rows: &[u8], columns: &[u8]) -> Option<Header>
    ensures sizes { result ≡ header_of order symmetry rows.now columns.now }
    ensures order { IfSome result (λ header. header.order ≡ order) }
    ensures symmetry { IfSome result (λ header. header.symmetry ≡ symmetry) }
{
    let rows = number_up_to(rows, greatest_size_of_matrix())?;
    let columns = number_up_to(columns, greatest_size_of_matrix())?;
    if (symmetry != Symmetry::General && rows != columns) || (order == 1 && columns != 1) {
        return None;
    }
    Some(Header {
        order,
        symmetry,
        rows,
        columns,
    })
}

/// The number of one or more digits, if it isn't greater.
fn number_up_to(token: &[u8], greatest: u64) -> Option<u64>
    ensures { result ≡ number_to greatest token.now }
{
    read_index(token, greatest).ok()
}

impl EntryLines {
    /// What a size line says is due, where each entry of a pattern has the value `one`. None where the line is none.
    pub(crate) fn read(order: usize, banner: Banner, one: u64, line: &[u8]) -> Option<EntryLines>
        ensures size { result ≡ size_of one order banner (tokens line.now) }
        ensures order { IfSome result (λ sized. sized.header.order ≡ order) }
        ensures symmetry { IfSome result (λ sized. sized.header.symmetry ≡ banner.symmetry) }
    {
        match banner.layout {
            Layout::Coordinate => entries_due(order, banner.symmetry, None, line),
            Layout::Pattern => entries_due(order, banner.symmetry, Some(one), line),
            Layout::Array => values_due(order, banner.symmetry, line),
        }
    }

    /// What the first lines of the file say.
    pub(crate) fn header(&self) -> Header
        ensures { result ≡ self.now.header }
    {
        self.header
    }

    /// Whether no entry line is due any more.
    pub(crate) fn are_complete(&self) -> bool
        ensures { result ≡ is_nothing self.now.slots }
    {
        matches!(self.due, Due::Entries { count: 0, .. } | Due::Values(None))
    }

    /// How many entry lines are due, if each is to have a row, a column and a value.
    pub(crate) fn full_count(&self) -> Option<u64>
        ensures { IfSome result (λ count. self.now ≡ full_due self.now.header count) }
    {
        match self.due {
            Due::Entries { count, value: None } => Some(count),
            _ => None,
        }
    }

    /// So many entry lines, each of a row, a column and a value.
    pub(crate) fn full(header: Header, count: u64) -> EntryLines
        ensures { result ≡ full_due header count }
    {
        EntryLines {
            header,
            due: Due::Entries { count, value: None },
        }
    }

    /// What an entry line tells, whose value may have a sign or none, or what is wrong with it: it is then no longer due.
    pub(crate) fn take(&mut self, line: &[u8], signed: bool) -> Result<PlacedValue, LineKind>
        ensures told { result ≡ entry_due signed self.old.header self.old.slots (tokens line.now) }
        ensures header { self.new.header ≡ self.old.header }
        ensures left { self.new.slots ≡ drop 1 self.old.slots }
    {
        match self.due {
            Due::Entries { count, value } => {
                if count == 0 {
                    return Err(LineKind::Extra);
                }
                let count = count - 1;
                self.due = Due::Entries { count, value };
                read_entry(&self.header, value, line, signed)
            }
            Due::Values(None) => Err(LineKind::Extra),
            Due::Values(Some(place)) => {
                self.due = Due::Values(place_behind(&self.header, place));
                read_value_at(place, line, signed)
            }
        }
    }
}

/// The entries that the size line of a coordinate file says are due, each of this value if it is known.
fn entries_due(
    order: usize,
    symmetry: Symmetry,
    value: Option<u64>,
    line: &[u8],
) -> Option<EntryLines>
    ensures size { result ≡ coordinate_size (slot_with value) order symmetry (three (tokens line.now)) }
    ensures order { IfSome result (λ sized. sized.header.order ≡ order) }
    ensures symmetry { IfSome result (λ sized. sized.header.symmetry ≡ symmetry) }
{
    let (rows, columns, count) = three_tokens(line)?;
    let header = read_sizes(order, symmetry, rows, columns)?;
    let count = number_up_to(count, greatest_entries_of_matrix())?;
    Some(EntryLines {
        header,
        due: Due::Entries { count, value },
    })
}

/// The values that the size line of an array says are due.
fn values_due(order: usize, symmetry: Symmetry, line: &[u8]) -> Option<EntryLines>
    ensures size { result ≡ array_size order symmetry (two (tokens line.now)) }
    ensures order { IfSome result (λ sized. sized.header.order ≡ order) }
    ensures symmetry { IfSome result (λ sized. sized.header.symmetry ≡ symmetry) }
{
    let (rows, columns) = two_tokens(line)?;
    let header = read_sizes(order, symmetry, rows, columns)?;
    let first = first_from_column(&header, 0);
    Some(EntryLines {
        header,
        due: Due::Values(first),
    })
}
