// Entries as columns: few bytes an entry, and the coordinates of a mode stand next to one another.
ghost use Rattle.std.specs.Prelude.{◌≡◌, ℕ, ◌<◌, ◌≤◌, ◌^◌, ◌+◌, [], ◌∷◌, ◌++◌, length, slice_index, slice_index_or};
ghost use Rattle.std.specs.Prelude.{All, IfOk, OnOk, OnErr, take, slice_set};
ghost use Rattle.std.specs.Ordering.{is_lt, nat_cmp};
ghost use Rattle.std.specs.Cmp.Lexicographic.{slice_cmp};
ghost use Rattle.limits.specs.Limits.{greatest_order};
ghost use Rattle.tensor_map.specs.Entries.{Entry, column_in, values_in};
ghost use Rattle.tensor_map.specs.Columns.{AreLong, HaveAt, KeepsBelow};

use crate::Coords;
use crate::pair_entry::PairEntry;
use std::alloc::{AllocError, Global};
use std::marker::Model;

/// Entries whose coordinates fit 32 bits, as a list of coordinates for each mode and a list of values. A list of coordinates is mostly
/// longer than there are entries: what stands behind them is room for the next ones.
#[derive(Debug, Drop)]
pub(crate) struct Columns {
    order: usize,
    modes: [Vec<u32>; 6],
    values: Vec<u64>,
    /// Each column has so many numbers, or more: a push looks at this, and not at each column.
    room: usize,
}

impl Model for Columns {
    ghost use Rattle.std.specs.Prelude.{take, ◌≡◌, ◌≤◌, length};
    ghost use Rattle.limits.specs.Limits.{greatest_order};
    ghost use Rattle.tensor_map.specs.Entries.{Entries as Row};
    ghost use Rattle.tensor_map.specs.Columns.{rows_of, AreLong};

    ghost Value = { Row };

    ghost view = { λ c. record { order = c.order; list = rows_of (λ column. column.items) (take c.order c.modes) c.values.items } };

    ghost invariant = { λ c. (c.order ≤ greatest_order) × AreLong (λ column. column.items) (take c.order c.modes) (length c.values.items)
        × (length c.modes ≡ 6) × AreLong (λ column. column.items) (take c.order c.modes) c.room };
}

impl Columns {
    /// No entries, of a tensor of this order. It takes no memory.
    pub(crate) fn new(alloc: Global, order: usize) -> Columns
        requires { order ≤ greatest_order }
        ensures order { result.order ≡ order }
        ensures empty { result.list ≡ [] }
    {
        Columns {
            order,
            modes: [
                Vec::new(alloc),
                Vec::new(alloc),
                Vec::new(alloc),
                Vec::new(alloc),
                Vec::new(alloc),
                Vec::new(alloc),
            ],
            values: Vec::new(alloc),
            room: 0,
        }
    }

    /// The number of entries.
    pub(crate) fn len(&self) -> usize
        ensures { result ≡ length self.now.list }
    {
        self.values.len()
    }

    /// The coordinates of an entry.
    #[tactic(auto, unfolding(limits::specs::Limits::greatest_order))]
    pub(crate) fn coords(&self, i: usize) -> Coords
        requires { i < length self.now.list }
        ensures { (d : Entry) → result ≡ (slice_index_or self.now.list i d).coords }
    {
        let mut coords = Coords::new(*self.values.allocator());
        for column in &self.modes[..self.order] {
            coords.push(column[i] as u64);
        }
        coords
    }

    /// The coordinate of an entry in a mode, in 32 bits.
    #[tactic(auto, unfolding(limits::specs::Limits::greatest_order))]
    #[inline(always)]
    fn narrow(&self, i: usize, mode: usize) -> u32
        requires entry { i < length self.now.list }
        requires mode { mode < self.now.order }
        ensures { (d : Entry) → result ≡ slice_index (slice_index_or self.now.list i d).coords mode }
    {
        let columns = &self.modes[..self.order];
        columns[mode][i]
    }

    /// The coordinate of an entry in a mode.
    pub(crate) fn coordinate(&self, i: usize, mode: usize) -> u64
        requires entry { i < length self.now.list }
        requires mode { mode < self.now.order }
        ensures { (d : Entry) → result ≡ slice_index (slice_index_or self.now.list i d).coords mode }
    {
        self.narrow(i, mode) as u64
    }

    /// The coordinates of all entries in a mode.
    #[tactic(auto, unfolding(limits::specs::Limits::greatest_order))]
    pub(crate) fn column(&self, mode: usize) -> &[u32]
        requires { mode < self.now.order }
        ensures { result.now ≡ column_in self.now.list mode }
    {
        let columns = &self.modes[..self.order];
        let column = columns[mode].as_slice();
        &column[..self.values.len()]
    }

    /// Whether the last entry's coordinates are before these.
    #[inline(always)]
    pub(crate) fn is_last_before(&self, coords: &[u64]) -> bool
        requires some { 0 < length self.now.list }
        requires long { length coords.now ≡ self.now.order }
        ensures { (k : ℕ) (d : Entry) → k + 1 ≡ length self.now.list
            → result ≡ is_lt (slice_cmp nat_cmp (slice_index_or self.now.list k d).coords coords.now) }
    {
        let _ = &self.values;
        let last = self.len() - 1;
        for (mode, coordinate) in coords.iter().enumerate() {
            let here = self.narrow(last, mode) as u64;
            if here != *coordinate {
                return here < *coordinate;
            }
        }
        false
    }

    /// An entry of a matrix as a pair.
    pub(crate) fn pair(&self, i: usize) -> PairEntry
        requires entry { i < length self.now.list }
        requires two { self.now.order ≡ 2 }
        ensures { (d : Entry) → result ≡ slice_index_or self.now.list i d }
    {
        let _ = &self.values;
        let row = self.narrow(i, 0);
        let column = self.narrow(i, 1);
        PairEntry::new(row, column, self.value(i))
    }

    /// The value of an entry.
    pub(crate) fn value(&self, i: usize) -> u64
        requires { i < length self.now.list }
        ensures { (d : Entry) → result ≡ (slice_index_or self.now.list i d).value }
    {
        self.values[i]
    }

    /// The values of all entries.
    pub(crate) fn values(&self) -> &[u64]
        ensures { result.now ≡ values_in self.now.list }
    {
        self.values.as_slice()
    }

    /// Puts an entry over another one.
    #[tactic(auto, unfolding(limits::specs::Limits::greatest_order))]
    pub(crate) fn overwrite(&mut self, to: usize, from: usize)
        requires first { to < length self.old.list }
        requires second { from < length self.old.list }
        ensures order { self.new.order ≡ self.old.order }
        ensures list { (d : Entry) → self.new.list ≡ slice_set self.old.list to (slice_index_or self.old.list from d) }
    {
        copy_coordinates(&mut self.modes[..self.order], to, from);
        self.values[to] = self.values[from];
    }

    /// Drops the entries from the one numbered `count` on.
    pub(crate) fn truncate(&mut self, count: usize)
        ensures order { self.new.order ≡ self.old.order }
        ensures list { self.new.list ≡ take count self.old.list }
    {
        self.values.truncate(count);
    }

    /// Appends an entry. Refused for want of memory, the entries are as before.
    #[tactic(auto, unfolding(limits::specs::Limits::greatest_order))]
    #[inline(always)]
    pub(crate) fn push(&mut self, coords: &[u64], value: u64) -> Result<(), AllocError>
        requires long { length coords.now ≡ self.old.order }
        requires narrow { All (λ coordinate. coordinate < 2 ^ 32) coords.now }
        ensures order { self.new.order ≡ self.old.order }
        ensures ok { OnOk result (self.new.list ≡ self.old.list ++ record { coords = coords.now; value = value } ∷ []) }
        ensures err { OnErr result (self.new ≡ self.old) }
    {
        let count = self.values.len();
        self.room = append(&mut self.modes[..self.order], count, self.room, coords)?;
        self.values.push(value)?;
        Ok(())
    }
}

/// Puts a coordinate into each column, after its first `count` ones, and answers how many numbers each column has then, or more: they
/// had `room`. Refused for want of memory, the first ones stay.
#[inline(always)]
fn append(
    columns: &mut [Vec<u32>],
    count: usize,
    room: usize,
    coords: &[u64],
) -> Result<usize, AllocError>
    requires long { length coords.now ≡ length columns.old }
    requires narrow { All (λ coordinate. coordinate < 2 ^ 32) coords.now }
    requires kept { AreLong (λ column. column.items) columns.old count }
    requires room { AreLong (λ column. column.items) columns.old room }
    ensures kept { (mode : ℕ) (d : _) → mode < length columns.old
        → KeepsBelow count (slice_index_or columns.old mode d).items (slice_index_or columns.new mode d).items }
    ensures room { AreLong (λ column. column.items) columns.new room }
    ensures ok { IfOk result (HaveAt (λ column. column.items) columns.new count coords.now) }
{
    let more = with_room(columns, count, room)?;
    put(columns, count, coords);
    Ok(more)
}

/// Makes columns longer than `count`, if they aren't, and answers how many numbers each has then, or more: they had `room`. Refused for
/// want of memory, the first `count` numbers stay.
#[inline(always)]
fn with_room(columns: &mut [Vec<u32>], count: usize, room: usize) -> Result<usize, AllocError>
    requires kept { AreLong (λ column. column.items) columns.old count }
    requires room { AreLong (λ column. column.items) columns.old room }
    ensures kept { (mode : ℕ) (d : _) → mode < length columns.old
        → KeepsBelow count (slice_index_or columns.old mode d).items (slice_index_or columns.new mode d).items }
    ensures room { AreLong (λ column. column.items) columns.new room }
    ensures more { IfOk result (λ more. count < more) }
    ensures long { IfOk result (AreLong (λ column. column.items) columns.new) }
{
    if count < room {
        return Ok(room);
    }
    lengthen(columns, count)
}

/// Makes columns longer than `count`, by doubling short ones and by a piece long ones, and answers how many numbers each has then. Refused
/// for want of memory, the first `count` numbers stay.
#[cold]
#[inline(never)]
fn lengthen(columns: &mut [Vec<u32>], count: usize) -> Result<usize, AllocError>
    requires kept { AreLong (λ column. column.items) columns.old count }
    ensures kept { (mode : ℕ) (d : _) → mode < length columns.old
        → KeepsBelow count (slice_index_or columns.old mode d).items (slice_index_or columns.new mode d).items }
    ensures more { IfOk result (λ more. count < more) }
    ensures long { IfOk result (AreLong (λ column. column.items) columns.new) }
{
    let Some(wanted) = count.checked_add(count.min(512).max(4)) else {
        return Err(AllocError);
    };
    for mode in 0..columns.len() {
        let column = &mut columns[mode];
        column.resize(wanted, 0)?;
    }
    Ok(wanted)
}

/// Puts a coordinate at a place of each column.
#[inline(always)]
fn put(columns: &mut [Vec<u32>], place: usize, coords: &[u64])
    requires long { length coords.now ≡ length columns.old }
    requires narrow { All (λ coordinate. coordinate < 2 ^ 32) coords.now }
    requires room { AreLong (λ column. column.items) columns.old (place + 1) }
    ensures { (mode : ℕ) (d : _) → mode < length columns.old → (slice_index_or columns.new mode d).items
        ≡ slice_set (slice_index_or columns.old mode d).items place (slice_index coords.now mode) }
{
    for (mode, coordinate) in coords.iter().enumerate() {
        let column = &mut columns[mode];
        column[place] = *coordinate as u32;
    }
}

/// Puts the coordinate at a place of each column over the one at another place.
fn copy_coordinates(columns: &mut [Vec<u32>], to: usize, from: usize)
    requires first { AreLong (λ column. column.items) columns.old (to + 1) }
    requires second { AreLong (λ column. column.items) columns.old (from + 1) }
    ensures { (mode : ℕ) (d : _) → mode < length columns.old → (slice_index_or columns.new mode d).items
        ≡ slice_set (slice_index_or columns.old mode d).items to (slice_index (slice_index_or columns.old mode d).items from) }
{
    for mode in 0..columns.len() {
        let column = &mut columns[mode];
        column[to] = column[from];
    }
}
