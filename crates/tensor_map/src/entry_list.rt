// A row of entries in one of three forms: as columns while they increase and are narrow; else each by itself, so that they can be sorted:
// as pairs of narrow coordinates in a matrix, and whole in any other tensor.
ghost use Rattle.std.specs.Prelude.{◌≡◌, ◌≤◌, ◌<◌, ◌^◌, ◌↔◌, [], ◌∷◌, ◌++◌};
ghost use Rattle.std.specs.Prelude.{length, slice_index, slice_index_or, take, filter};
ghost use Rattle.std.specs.Prelude.{All, IsTrue, IfOk, OnOk, OnErr, IfSome};
ghost use Rattle.limits.specs.Limits.{greatest_order};
ghost use Rattle.tensor_map.specs.Entries.{Entry, IsEntry, ComeLast};
ghost use Rattle.tensor_map.specs.Entries.{column_in, values_in, is_nonzero};
ghost use Rattle.tensor_map.specs.Summed.{SortsAndAdds};

use crate::Coords;
use crate::columns::Columns;
use crate::pair_entry::PairEntry;
use crate::rows::Rows;
use crate::sorted_rows::sort_rows;
use crate::whole_entry::WholeEntry;
use numbers::Semiring;
use std::alloc::{AllocError, Global};
use std::marker::Model;

/// How entries stand in memory.
#[derive(Debug, Drop)]
pub(crate) enum EntryForm {
    /// As columns: they increase, and their coordinates fit 32 bits.
    Columns(Columns),
    /// Each by itself, of a matrix: their coordinates fit 32 bits.
    Pairs(Vec<PairEntry>),
    /// Each whole.
    Rows(Vec<WholeEntry>),
}

/// Entries in a row.
#[derive(Debug, Drop)]
pub(crate) struct EntryList {
    alloc: Global,
    order: usize,
    form: EntryForm,
}

impl Model for EntryList {
    ghost use Rattle.tensor_map.specs.Entries.{Entries as Row};

    ghost Value = { Row };

    ghost use Rattle.tensor_map.specs.EntryLists.{listed_in, IsForm};

    ghost view = { λ l. record { order = l.order; list = listed_in l.form } };

    ghost invariant = { λ l. IsForm l.order l.form };
}

impl EntryList {
    /// No entries, of a tensor of this order. It takes no memory.
    pub(crate) fn new(alloc: Global, order: usize) -> EntryList
        requires { order ≤ greatest_order }
        ensures order { result.order ≡ order }
        ensures empty { result.list ≡ [] }
    {
        EntryList {
            alloc,
            order,
            form: EntryForm::Columns(Columns::new(alloc, order)),
        }
    }

    /// The number of entries.
    pub(crate) fn len(&self) -> usize
        ensures { result ≡ length self.now.list }
    {
        match &self.form {
            EntryForm::Columns(columns) => columns.len(),
            EntryForm::Pairs(pairs) => pairs.len(),
            EntryForm::Rows(rows) => rows.len(),
        }
    }

    /// The number of modes.
    pub(crate) fn order(&self) -> usize
        ensures { result ≡ self.now.order }
    {
        self.order
    }

    /// The coordinates of an entry.
    pub(crate) fn coords(&self, i: usize) -> Coords
        requires { i < length self.now.list }
        ensures { (d : Entry) → result ≡ (slice_index_or self.now.list i d).coords }
    {
        match &self.form {
            EntryForm::Columns(columns) => columns.coords(i),
            EntryForm::Pairs(pairs) => pairs[i].coords(self.alloc),
            EntryForm::Rows(rows) => rows[i].coords(self.alloc),
        }
    }

    /// The coordinate of an entry in a mode.
    pub(crate) fn coordinate(&self, i: usize, mode: usize) -> u64
        requires entry { i < length self.now.list }
        requires mode { mode < self.now.order }
        requires entries { All (IsEntry self.now.order) self.now.list }
        ensures { (d : Entry) → result ≡ slice_index (slice_index_or self.now.list i d).coords mode }
    {
        match &self.form {
            EntryForm::Columns(columns) => columns.coordinate(i, mode),
            EntryForm::Pairs(pairs) => pairs[i].coordinate(mode),
            EntryForm::Rows(rows) => rows[i].as_slice()[mode],
        }
    }

    /// The coordinates of all entries in a mode, where they are columns.
    pub(crate) fn column(&self, mode: usize) -> Option<&[u32]>
        requires { mode < self.now.order }
        ensures { IfSome result (λ column. column.now ≡ column_in self.now.list mode) }
    {
        match &self.form {
            EntryForm::Columns(columns) => Some(columns.column(mode)),
            EntryForm::Pairs(_) => None,
            EntryForm::Rows(_) => None,
        }
    }

    /// The value of an entry.
    pub(crate) fn value(&self, i: usize) -> u64
        requires { i < length self.now.list }
        ensures { (d : Entry) → result ≡ (slice_index_or self.now.list i d).value }
    {
        match &self.form {
            EntryForm::Columns(columns) => columns.value(i),
            EntryForm::Pairs(pairs) => pairs[i].value(),
            EntryForm::Rows(rows) => rows[i].value(),
        }
    }

    /// The values of all entries, where they are columns.
    pub(crate) fn values(&self) -> Option<&[u64]>
        ensures { IfSome result (λ values. values.now ≡ values_in self.now.list) }
    {
        match &self.form {
            EntryForm::Columns(columns) => Some(columns.values()),
            EntryForm::Pairs(_) => None,
            EntryForm::Rows(_) => None,
        }
    }

    /// Appends an entry. Refused for want of memory, the entries are as before.
    #[inline(always)]
    pub(crate) fn push(&mut self, coords: &[u64], value: u64) -> Result<(), AllocError>
        requires { length coords.now ≡ self.old.order }
        ensures order { self.new.order ≡ self.old.order }
        ensures ok { OnOk result (self.new.list ≡ self.old.list ++ record { coords = coords.now; value = value } ∷ []) }
        ensures err { OnErr result (self.new ≡ self.old) }
    {
        if let EntryForm::Columns(columns) = &mut self.form {
            if are_narrow(coords) && come_last(columns, coords) {
                columns.push(coords, value)?;
                return Ok(());
            }
        }
        self.push_apart(coords, value)
    }

    /// Appends an entry to those that stand each by itself, as columns become before it. It is apart, since a function pays for the room
    /// that it may take.
    #[inline(never)]
    fn push_apart(&mut self, coords: &[u64], value: u64) -> Result<(), AllocError>
        requires { length coords.now ≡ self.old.order }
        ensures order { self.new.order ≡ self.old.order }
        ensures ok { OnOk result (self.new.list ≡ self.old.list ++ record { coords = coords.now; value = value } ∷ []) }
        ensures err { OnErr result (self.new ≡ self.old) }
    {
        if let EntryForm::Pairs(pairs) = &mut self.form {
            if let Some(pair) = pair_of(coords, value) {
                pairs.push(pair)?;
                return Ok(());
            }
        }
        self.push_whole(coords, value)
    }

    /// Appends an entry to whole entries, or to those of another form, which changes before it.
    #[inline(never)]
    #[tactic(auto, unfolding(limits::specs::Limits::greatest_order))]
    fn push_whole(&mut self, coords: &[u64], value: u64) -> Result<(), AllocError>
        requires { length coords.now ≡ self.old.order }
        ensures order { self.new.order ≡ self.old.order }
        ensures ok { OnOk result (self.new.list ≡ self.old.list ++ record { coords = coords.now; value = value } ∷ []) }
        ensures err { OnErr result (self.new ≡ self.old) }
    {
        match &mut self.form {
            EntryForm::Rows(rows) => rows.push(WholeEntry::new(coords, value))?,
            EntryForm::Pairs(pairs) => {
                let mut rows = whole(self.alloc, pairs)?;
                rows.push(WholeEntry::new(coords, value))?;
                self.form = EntryForm::Rows(rows);
            }
            EntryForm::Columns(columns) => {
                if let Some(pair) = pair_of(coords, value) {
                    let mut pairs = pairs_of(self.alloc, columns)?;
                    pairs.push(pair)?;
                    self.form = EntryForm::Pairs(pairs);
                } else {
                    let mut rows = rows_of(self.alloc, columns)?;
                    rows.push(WholeEntry::new(coords, value))?;
                    self.form = EntryForm::Rows(rows);
                }
            }
        }
        Ok(())
    }

    /// Puts the entries in increasing lexicographic order of their coordinates, and adds the values of equal ones, as `S`
    /// says. Nothing is refused: columns increase already, and whole entries are sorted where they stand. They become columns
    /// then, unless memory for these is wanted.
    pub(crate) fn sort_sum<S: Semiring>(&mut self)
        requires { All (IsEntry self.old.order) self.old.list }
        ensures order { self.new.order ≡ self.old.order }
        ensures sorts { SortsAndAdds S.arithmetic self.old.list self.new.list }
        ensures shorter { length self.new.list ≤ length self.old.list }
    {
        match &mut self.form {
            EntryForm::Columns(_) => {}
            EntryForm::Pairs(pairs) => {
                sort_rows::<S, Vec<PairEntry>>(pairs);
                if let Some(columns) = columns_of(self.alloc, self.order, pairs) {
                    self.form = EntryForm::Columns(columns);
                }
            }
            EntryForm::Rows(rows) => {
                sort_rows::<S, Vec<WholeEntry>>(rows);
                if let Some(columns) = columns_of(self.alloc, self.order, rows) {
                    self.form = EntryForm::Columns(columns);
                }
            }
        }
    }

    /// Drops the entries whose value is the zero of `S`, and keeps the others in their order. It takes no memory.
    pub(crate) fn nonzero<S: Semiring>(&mut self)
        ensures order { self.new.order ≡ self.old.order }
        ensures kept { self.new.list ≡ filter (is_nonzero S.arithmetic) self.old.list }
    {
        match &mut self.form {
            EntryForm::Columns(columns) => keep_nonzero::<S>(columns),
            EntryForm::Pairs(pairs) => pairs.retain(|entry| entry.value() != S::zero()),
            EntryForm::Rows(rows) => rows.retain(|entry| entry.value() != S::zero()),
        }
    }
}

/// Drops the entries whose value is the zero of `S`, and keeps the others in their order.
fn keep_nonzero<S: Semiring>(columns: &mut Columns)
    ensures order { columns.new.order ≡ columns.old.order }
    ensures kept { columns.new.list ≡ filter (is_nonzero S.arithmetic) columns.old.list }
{
    let mut kept = 0;
    for next in 0..columns.len() {
        if columns.value(next) != S::zero() {
            if kept < next {
                columns.overwrite(kept, next);
            }
            kept += 1;
        }
    }
    columns.truncate(kept);
}

/// Whether the coordinates are after those of the last entry.
#[inline(always)]
fn come_last(columns: &Columns, coords: &[u64]) -> bool
    requires { length coords.now ≡ columns.now.order }
    ensures { IsTrue result ↔ ComeLast columns.now.list coords.now }
{
    columns.len() == 0 || columns.is_last_before(coords)
}

/// Whether each coordinate fits 32 bits.
#[inline(always)]
fn are_narrow(coords: &[u64]) -> bool
    ensures { IsTrue result ↔ All (λ coordinate. coordinate < 2 ^ 32) coords.now }
{
    coords
        .iter()
        .all(|coordinate| *coordinate <= u32::MAX as u64)
}

/// An entry of a matrix as a pair, if its coordinates fit.
fn pair_of(coords: &[u64], value: u64) -> Option<PairEntry>
    ensures pair { IfSome result (λ pair. pair ≡ record { coords = coords.now; value = value }) }
    ensures two { IfSome result (λ _. length coords.now ≡ 2) }
{
    if coords.len() == 2 && are_narrow(coords) {
        return Some(PairEntry::new(coords[0] as u32, coords[1] as u32, value));
    }
    None
}

/// So much room that pushes of so many entries and one more would have come to it, so that the next ones want no more than they would.
fn room_behind(count: usize) -> usize {
    count
        .saturating_add(1)
        .checked_next_power_of_two()
        .unwrap_or(0)
}

/// The entries of a matrix as pairs. Refused for want of memory alone.
fn pairs_of(alloc: Global, columns: &Columns) -> Result<Vec<PairEntry>, AllocError>
    requires { columns.now.order ≡ 2 }
    ensures { IfOk result (λ pairs. pairs.items ≡ columns.now.list) }
{
    let mut pairs = Vec::with_capacity(alloc, room_behind(columns.len()))?;
    for i in 0..columns.len() {
        pairs.push(columns.pair(i))?;
    }
    Ok(pairs)
}

/// The same entries, each whole. Refused for want of memory alone.
fn whole(alloc: Global, pairs: &[PairEntry]) -> Result<Vec<WholeEntry>, AllocError>
    ensures { IfOk result (λ rows. rows.items ≡ pairs.now) }
{
    let mut rows = Vec::with_capacity(alloc, room_behind(pairs.len()))?;
    for pair in pairs {
        let coords = pair.coords(alloc);
        rows.push(WholeEntry::new(coords.as_slice(), pair.value()))?;
    }
    Ok(rows)
}

/// The entries, each whole. Refused for want of memory alone.
fn rows_of(alloc: Global, columns: &Columns) -> Result<Vec<WholeEntry>, AllocError>
    ensures { IfOk result (λ rows. rows.items ≡ columns.now.list) }
{
    let mut rows = Vec::with_capacity(alloc, room_behind(columns.len()))?;
    for i in 0..columns.len() {
        let coords = columns.coords(i);
        rows.push(WholeEntry::new(coords.as_slice(), columns.value(i)))?;
    }
    Ok(rows)
}

/// The entries as columns: none where a coordinate doesn't fit, or memory is wanted.
fn columns_of<R: Rows>(alloc: Global, order: usize, rows: &R) -> Option<Columns>
    requires short { order ≤ greatest_order }
    requires long { All (λ row. length row.coords ≡ order) (R.entries rows.now) }
    ensures order { IfSome result (λ columns. columns.order ≡ order) }
    ensures list { IfSome result (λ columns. columns.list ≡ R.entries rows.now) }
{
    let mut columns = Columns::new(alloc, order);
    for i in 0..rows.count() {
        let coords = rows.coords_at(alloc, i);
        if !are_narrow(coords.as_slice()) {
            return None;
        }
        columns.push(coords.as_slice(), rows.value_at(i)).ok()?;
    }
    Some(columns)
}
