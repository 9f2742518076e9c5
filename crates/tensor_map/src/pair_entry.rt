// Entries of a matrix whose coordinates fit 32 bits, each in a quarter of the memory of a whole one.
ghost use Rattle.std.specs.Prelude.{◌≡◌, ◌<◌, ◌^◌, [], ◌∷◌};
ghost use Rattle.std.specs.Cmp.Lexicographic.{slice_cmp, pointwise};
ghost use Rattle.std.specs.Prelude.{nat_eq, slice_index, length};
ghost use Rattle.std.specs.Ordering.{nat_cmp};
ghost use Rattle.tensor_map.specs.Entries.{Entry};

use crate::Coords;
use std::alloc::Global;
use std::cmp::Ordering;
use std::marker::Model;

/// The two coordinates of an entry, and its value.
#[derive(Debug, Drop)]
pub(crate) struct PairEntry {
    row: u32,
    column: u32,
    value: u64,
}

impl Model for PairEntry {
    ghost use Rattle.std.specs.Prelude.{[], ◌∷◌};
    ghost use Rattle.tensor_map.specs.Entries.{Entry as Seen};

    ghost Value = { Seen };

    ghost view = { λ e. record { coords = e.row ∷ e.column ∷ []; value = e.value } };
}

impl PairEntry {
    /// An entry with these coordinates.
    pub(crate) fn new(row: u32, column: u32, value: u64) -> PairEntry
        ensures { result ≡ record { coords = row ∷ column ∷ []; value = value } }
    {
        PairEntry { row, column, value }
    }

    /// The coordinates.
    #[tactic(auto, unfolding(limits::specs::Limits::greatest_order))]
    pub(crate) fn coords(&self, alloc: Global) -> Coords
        ensures { result ≡ self.now.coords }
    {
        let mut coords = Coords::new(alloc);
        coords.push(self.row as u64);
        coords.push(self.column as u64);
        coords
    }

    /// The coordinate in a mode.
    pub(crate) fn coordinate(&self, mode: usize) -> u64
        requires { mode < 2 }
        ensures { result ≡ slice_index self.now.coords mode }
    {
        if mode == 0 {
            self.row as u64
        } else {
            self.column as u64
        }
    }

    /// The value.
    pub(crate) fn value(&self) -> u64
        ensures { result ≡ self.now.value }
    {
        self.value
    }

    /// Gives the entry another value.
    pub(crate) fn put_value(&mut self, value: u64)
        ensures { self.new ≡ record { coords = self.old.coords; value = value } }
    {
        self.value = value;
    }

    /// How the coordinates stand to those of another entry, the first mode first: as the one word that they make.
    pub(crate) fn compare(&self, other: &PairEntry) -> Ordering
        ensures { result ≡ slice_cmp nat_cmp self.now.coords other.now.coords }
    {
        let mine = self.row as u64 * 4_294_967_296 + self.column as u64;
        let others = other.row as u64 * 4_294_967_296 + other.column as u64;
        mine.cmp(&others)
    }

    /// Whether another entry has the same coordinates.
    pub(crate) fn is_at(&self, other: &PairEntry) -> bool
        ensures { result ≡ pointwise nat_eq self.now.coords other.now.coords }
    {
        self.row == other.row && self.column == other.column
    }
}
