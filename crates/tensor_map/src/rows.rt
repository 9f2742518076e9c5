// What sorting and adding ask of entries in rows, however each of them stands in memory.
ghost use Rattle.std.specs.Prelude.{◌≡◌, ◌<◌, List, length, slice_index_or, slice_set, nat_eq, take};
ghost use Rattle.std.specs.List.{SwappedAt};
ghost use Rattle.std.specs.List.Sorted.{IsPermutation, IsSortedBy};
ghost use Rattle.std.specs.Cmp.Lexicographic.{pointwise};
ghost use Rattle.tensor_map.specs.Entries.{Entry};
ghost use Rattle.tensor_map.specs.Sorted.{is_before, with_value};

use crate::Coords;
use crate::pair_entry::PairEntry;
use crate::whole_entry::WholeEntry;
use std::alloc::Global;

/// Entries in a row.
pub(crate) trait Rows {
    /// What is seen of them.
    ghost entries: { Self → List Entry };

    /// The number of entries.
    fn count(&self) -> usize
        ensures { result ≡ length (entries self.now) };

    /// The coordinates of an entry.
    fn coords_at(&self, alloc: Global, i: usize) -> Coords
        requires { i < length (entries self.now) }
        ensures { (d : Entry) → result ≡ (slice_index_or (entries self.now) i d).coords };

    /// The value of an entry.
    fn value_at(&self, i: usize) -> u64
        requires { i < length (entries self.now) }
        ensures { (d : Entry) → result ≡ (slice_index_or (entries self.now) i d).value };

    /// Gives an entry another value.
    fn put_value_at(&mut self, i: usize, value: u64)
        requires { i < length (entries self.old) }
        ensures { (d : Entry) → entries self.new ≡ slice_set (entries self.old) i
            (with_value (slice_index_or (entries self.old) i d) value) };

    /// Whether two entries have the same coordinates.
    fn are_equal(&self, i: usize, j: usize) -> bool
        requires first { i < length (entries self.now) }
        requires second { j < length (entries self.now) }
        ensures { (d : Entry) → result
            ≡ pointwise nat_eq (slice_index_or (entries self.now) i d).coords (slice_index_or (entries self.now) j d).coords };

    /// Puts the entries in an order in which none comes before the one in front of it. It takes no memory.
    fn sort_by_coords(&mut self)
        ensures permutation { IsPermutation (entries self.old) (entries self.new) }
        ensures len { length (entries self.new) ≡ length (entries self.old) }
        ensures sorted { IsSortedBy is_before (entries self.new) };

    /// Has two entries change places.
    fn exchange(&mut self, i: usize, j: usize)
        requires first { i < length (entries self.old) }
        requires second { j < length (entries self.old) }
        ensures len { length (entries self.new) ≡ length (entries self.old) }
        ensures by_index { SwappedAt (entries self.old) (entries self.new) i j };

    /// Drops the entries from the one numbered `count` on.
    fn keep_first(&mut self, count: usize)
        ensures { entries self.new ≡ take count (entries self.old) };
}

impl Rows for Vec<WholeEntry> {
    ghost entries = { λ rows. rows.items };

    fn count(&self) -> usize {
        self.len()
    }

    fn coords_at(&self, alloc: Global, i: usize) -> Coords {
        self[i].coords(alloc)
    }

    fn value_at(&self, i: usize) -> u64 {
        self[i].value()
    }

    fn put_value_at(&mut self, i: usize, value: u64) {
        let entry = &mut self[i];
        entry.put_value(value);
    }

    fn are_equal(&self, i: usize, j: usize) -> bool {
        let other = &self[j];
        self[i].is_at(other)
    }

    fn sort_by_coords(&mut self) {
        self.sort_unstable_by(|left, right| left.compare(right));
    }

    fn exchange(&mut self, i: usize, j: usize) {
        self.swap(i, j);
    }

    fn keep_first(&mut self, count: usize) {
        self.truncate(count);
    }
}

impl Rows for Vec<PairEntry> {
    ghost entries = { λ rows. rows.items };

    fn count(&self) -> usize {
        self.len()
    }

    fn coords_at(&self, alloc: Global, i: usize) -> Coords {
        self[i].coords(alloc)
    }

    fn value_at(&self, i: usize) -> u64 {
        self[i].value()
    }

    fn put_value_at(&mut self, i: usize, value: u64) {
        let entry = &mut self[i];
        entry.put_value(value);
    }

    fn are_equal(&self, i: usize, j: usize) -> bool {
        let other = &self[j];
        self[i].is_at(other)
    }

    fn sort_by_coords(&mut self) {
        self.sort_unstable_by(|left, right| left.compare(right));
    }

    fn exchange(&mut self, i: usize, j: usize) {
        self.swap(i, j);
    }

    fn keep_first(&mut self, count: usize) {
        self.truncate(count);
    }
}
