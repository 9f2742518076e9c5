ghost use Rattle.std.specs.Prelude.{◌≡◌, ℕ, ◌≤◌, ◌<◌, ◌↔◌, [], ◌∷◌, ◌++◌};
ghost use Rattle.std.specs.Prelude.{length, IsTrue, IsOk, IfOk, OnOk, OnErr, IfSome, MatchOption};
ghost use Rattle.std.specs.Prelude.{slice_index, slice_index_or, max, filter};
ghost use Rattle.limits.specs.Limits.{greatest_order};
ghost use Rattle.tensor_map.specs.Entries.{Entry, column_in, values_in, greatest_in};

use crate::Coords;
use crate::entry_list::EntryList;
use numbers::Semiring;
use std::alloc::{AllocError, Global};
use std::marker::Model;

/// Entries of a tensor in a row, which may repeat coordinates. The greatest coordinates are noted as each is pushed.
#[derive(Debug, Drop)]
pub struct Entries {
    list: EntryList,
    /// The greatest coordinate of each mode, and 0 where there is no entry.
    greatest: [u64; 6],
}

impl Model for Entries {
    ghost use Rattle.tensor_map.specs.Entries.{Entries as Row, AreNoted};

    ghost Value = { Row };

    ghost view = { λ e. e.list };

    ghost invariant = { λ e. AreNoted e.list e.greatest };
}

impl Entries {
    ghost use Rattle.tensor_map.specs.Entries.{AreEntries, SameValues, SameListed, StrictlyIncreasing, is_nonzero, NoneIsZero, IsGreatest};

    /// No entries, of a tensor of this order. It takes no memory.
    pub fn new(alloc: Global, order: usize) -> Result<Entries, AllocError>
        requires { order ≤ greatest_order }
        ensures order { IfOk result (λ entries. entries.order ≡ order) }
        ensures empty { IfOk result (λ entries. entries.list ≡ []) }
        ensures succeeds { IsOk result }
    {
        Ok(Entries {
            list: EntryList::new(alloc, order),
            greatest: [0; 6],
        })
    }

    /// Appends an entry. Refused for want of memory, the entries are as before.
    #[tactic(auto, unfolding(limits::specs::Limits::greatest_order))]
    #[inline(always)]
    pub fn push(&mut self, coords: &[u64], v: u64) -> Result<(), AllocError>
        requires { length coords.now ≡ self.old.order }
        ensures order { self.new.order ≡ self.old.order }
        ensures ok { OnOk result (self.new.list ≡ self.old.list ++ record { coords = coords.now; value = v } ∷ []) }
        ensures err { OnErr result (self.new ≡ self.old) }
    {
        self.list.push(coords, v)?;
        raise(&mut self.greatest, coords);
        Ok(())
    }

    /// The coordinates of an entry, counted from 0, one a mode. It takes no memory.
    pub fn coords(&self, i: usize) -> Coords
        requires { i < length self.now.list }
        ensures value { (d : Entry) → result ≡ (slice_index_or self.now.list i d).coords }
        ensures long { length result ≡ self.now.order }
    {
        self.list.coords(i)
    }

    /// The coordinate of an entry in a mode, both counted from 0.
    pub fn coordinate(&self, i: usize, mode: usize) -> u64
        requires entry { i < length self.now.list }
        requires mode { mode < self.now.order }
        ensures { (d : Entry) → result ≡ slice_index (slice_index_or self.now.list i d).coords mode }
    {
        let _ = &self.greatest;
        self.list.coordinate(i, mode)
    }

    /// The coordinates of all entries in a mode, counted from 0, in the order of the entries, where they stand next to one another with
    /// four bytes each: so do those of entries that increase and fit. It takes no memory.
    pub fn column(&self, mode: usize) -> Option<&[u32]>
        requires { mode < self.now.order }
        ensures { IfSome result (λ column. column.now ≡ column_in self.now.list mode) }
    {
        let _ = &self.greatest;
        self.list.column(mode)
    }

    /// The value of an entry.
    pub fn value(&self, i: usize) -> u64
        requires { i < length self.now.list }
        ensures { (d : Entry) → result ≡ (slice_index_or self.now.list i d).value }
    {
        self.list.value(i)
    }

    /// The values of all entries in their order, where they stand next to one another: so do those of entries that increase and whose
    /// coordinates fit four bytes. It takes no memory.
    pub fn values(&self) -> Option<&[u64]>
        ensures { IfSome result (λ values. values.now ≡ values_in self.now.list) }
    {
        let _ = &self.greatest;
        self.list.values()
    }

    /// The number of entries.
    pub fn len(&self) -> usize
        ensures value { result ≡ length self.now.list }
        ensures entries { AreEntries self.now }
    {
        let _ = &self.greatest;
        self.list.len()
    }

    /// Whether there is no entry.
    pub fn is_empty(&self) -> bool
        ensures { IsTrue result ↔ (self.now.list ≡ []) }
    {
        self.list.len() == 0
    }

    /// The number of modes of the tensor.
    pub fn order(&self) -> usize
        ensures value { result ≡ self.now.order }
        ensures short { result ≤ greatest_order }
    {
        let _ = &self.greatest;
        self.list.order()
    }

    /// Puts the entries in increasing lexicographic order of their coordinates, and adds the values of equal ones, as
    /// `S` says. A sum of zero stays. They are sorted where they stand, which takes no memory: nothing is refused. Where they
    /// increase already, nothing is read or moved.
    pub fn sort_sum<S: Semiring>(&mut self) -> Result<(), AllocError>
        ensures order { self.new.order ≡ self.old.order }
        ensures values { OnOk result (SameValues S.arithmetic self.old.list self.new.list) }
        ensures listed { OnOk result (SameListed self.old.list self.new.list) }
        ensures increasing { OnOk result (StrictlyIncreasing self.new.list) }
        ensures entries { AreEntries self.new }
        ensures shorter { length self.new.list ≤ length self.old.list }
        ensures succeeds { IsOk result }
    {
        self.list.sort_sum::<S>();
        Ok(())
    }

    /// Drops the entries whose value is the zero of `S`, and keeps the others in their order. It takes no memory.
    pub fn nonzero<S: Semiring>(&mut self)
        ensures order { self.new.order ≡ self.old.order }
        ensures kept { self.new.list ≡ filter (is_nonzero S.arithmetic) self.old.list }
        ensures none { NoneIsZero S.arithmetic self.new.list }
        ensures values { SameValues S.arithmetic self.old.list self.new.list }
        ensures increasing { StrictlyIncreasing self.old.list → StrictlyIncreasing self.new.list }
        ensures entries { AreEntries self.new }
    {
        let before = self.list.len();
        self.list.nonzero::<S>();
        if self.list.len() < before {
            self.greatest = greatest_of(&self.list);
        }
    }

    /// The greatest coordinate that an entry has in a mode, and none exactly where there is no entry.
    #[tactic(auto, unfolding(limits::specs::Limits::greatest_order))]
    pub fn greatest(&self, mode: usize) -> Option<u64>
        requires { mode < self.now.order }
        ensures { MatchOption result (self.now.list ≡ []) (IsGreatest self.now.list mode) }
    {
        if self.list.len() == 0 {
            return None;
        }
        Some(self.greatest[mode])
    }
}

/// Raises the greatest coordinate of each mode to an entry's, where that is greater.
#[inline(always)]
fn raise(greatest: &mut [u64], coords: &[u64])
    requires { length coords.now ≤ length greatest.old }
    ensures { (mode : ℕ) → slice_index greatest.new mode ≡ max (slice_index coords.now mode) (slice_index greatest.old mode) }
{
    for (mode, coordinate) in coords.iter().enumerate() {
        greatest[mode] = greatest[mode].max(*coordinate);
    }
}

/// The greatest coordinate of each mode, and 0 where there is no entry.
#[tactic(auto, unfolding(limits::specs::Limits::greatest_order))]
fn greatest_of(entries: &EntryList) -> [u64; 6]
    ensures { (mode : ℕ) → slice_index result mode ≡ greatest_in entries.now.list mode }
{
    let mut greatest = [0; 6];
    for i in 0..entries.len() {
        let coords = entries.coords(i);
        raise(&mut greatest, coords.as_slice());
    }
    greatest
}
