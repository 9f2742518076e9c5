// Entries of a tensor of any order, each whole: the coordinates stand in the entry itself.
ghost use Rattle.std.specs.Prelude.{◌≡◌, ◌≤◌, length};
ghost use Rattle.std.specs.Cmp.Lexicographic.{slice_cmp, pointwise};
ghost use Rattle.std.specs.Prelude.{nat_eq};
ghost use Rattle.std.specs.Ordering.{nat_cmp};
ghost use Rattle.limits.specs.Limits.{greatest_order};
ghost use Rattle.tensor_map.specs.Entries.{Entry};

use crate::Coords;
use std::alloc::Global;
use std::cmp::Ordering;
use std::marker::Model;

/// The coordinates of an entry, with room for as many as a tensor may have modes, and its value.
#[derive(Debug, Drop)]
pub(crate) struct WholeEntry {
    numbers: [u64; 6],
    order: usize,
    value: u64,
}

impl Model for WholeEntry {
    ghost use Rattle.std.specs.Prelude.{◌≤◌, take};
    ghost use Rattle.limits.specs.Limits.{greatest_order};
    ghost use Rattle.tensor_map.specs.Entries.{Entry as Seen};

    ghost Value = { Seen };

    ghost view = { λ e. record { coords = take e.order e.numbers; value = e.value } };

    ghost invariant = { λ e. e.order ≤ greatest_order };
}

impl WholeEntry {
    /// An entry with these coordinates.
    #[tactic(auto, unfolding(limits::specs::Limits::greatest_order))]
    pub(crate) fn new(coords: &[u64], value: u64) -> WholeEntry
        requires { length coords.now ≤ greatest_order }
        ensures { result ≡ record { coords = coords.now; value = value } }
    {
        let mut numbers = [0; 6];
        numbers[..coords.len()].copy_from_slice(coords);
        WholeEntry {
            numbers,
            order: coords.len(),
            value,
        }
    }

    /// The coordinates, from mode 0 on, where they stand.
    #[tactic(auto, unfolding(limits::specs::Limits::greatest_order))]
    pub(crate) fn as_slice(&self) -> &[u64]
        ensures value { result.now ≡ self.now.coords }
        ensures short { length self.now.coords ≤ greatest_order }
    {
        let _ = &self.value;
        &self.numbers[..self.order]
    }

    /// The coordinates.
    pub(crate) fn coords(&self, alloc: Global) -> Coords
        ensures { result ≡ self.now.coords }
    {
        Coords::from_slice(alloc, self.as_slice())
    }

    /// The value.
    pub(crate) fn value(&self) -> u64
        ensures { result ≡ self.now.value }
    {
        self.value
    }

    /// Gives the entry another value.
    pub(crate) fn put_value(&mut self, value: u64)
        ensures { self.new ≡ record { coords = self.old.coords; value = value } }
    {
        self.value = value;
    }

    /// How the coordinates stand to those of another entry, the first mode first.
    pub(crate) fn compare(&self, other: &WholeEntry) -> Ordering
        ensures { result ≡ slice_cmp nat_cmp self.now.coords other.now.coords }
    {
        self.as_slice().cmp(&other.as_slice())
    }

    /// Whether another entry has the same coordinates.
    pub(crate) fn is_at(&self, other: &WholeEntry) -> bool
        ensures { result ≡ pointwise nat_eq self.now.coords other.now.coords }
    {
        self.as_slice() == other.as_slice()
    }
}
