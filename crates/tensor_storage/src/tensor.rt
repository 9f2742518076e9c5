ghost use Rattle.std.specs.Prelude.{◌≡◌, ◌<◌, ◌^◌, ℕ, All, length, slice_index, IfOk, MatchResult};
ghost use Rattle.tensor_map.specs.Entries.{StrictlyIncreasing};

use crate::entries::{EntryRows, arrange};
use crate::finding::value_at;
use crate::level::StorageLevel;
use crate::listing::{append_paths, levels_of_modes, sort_entries};
use crate::packing::{PackRefusal, PackedTable, pack_table};
use format_spec::{Format, FormatLevel};
use level_core::Span;
use numbers::Semiring;
use std::alloc::{AllocError, Global};
use std::marker::Model;
use tensor_map::{Entries, Shape};
use trees::Items;

/// A packed tensor: the levels of its format one below another, and a value for each position of the last one.
#[derive(Drop)]
pub struct Tensor {
    format: Format,
    levels: Items<StorageLevel>,
    values: Items<u64>,
}

impl Model for Tensor {
    ghost use Rattle.tensor_storage.specs.Storages.{Storage, IsStorage};

    ghost Value = { Storage };

    ghost view = { λ t. record { format = t.format; levels = t.levels; values = t.values } };

    ghost invariant = { λ t. IsStorage (record { format = t.format; levels = t.levels; values = t.values }) };
}

impl Tensor {
    ghost use Rattle.tensor_storage.specs.Arranged.{AreInside, IsPackedFrom, IsRefusalOf};
    ghost use Rattle.tensor_storage.specs.Routes.{ListsPaths};
    ghost use Rattle.tensor_storage.specs.Storages.{IsStorage, EndsAt, storage_of};

    /// Packs the entries of a tensor, which increase in the order of the modes: each is stored, those of value zero too. Every other
    /// value is the zero of `S`. Refused for want of memory, or exactly where a level would have more positions than may be: the first
    /// such level is told, and nothing is stored of it. No entry is copied: where their order by the levels is another, their
    /// numbers are sorted, and their coordinates looked up once.
    ///
    /// What is packed keeps the rules of its levels, and its values are words.
    pub fn pack<S: Semiring>(
        alloc: Global,
        format: Format,
        shape: &Shape,
        entries: &Entries,
    ) -> Result<Tensor, PackRefusal>
        requires shape { length shape.now ≡ length format }
        requires order { entries.now.order ≡ length format }
        requires increasing { StrictlyIncreasing entries.now.list }
        requires inside { AreInside shape.now entries.now.list }
        ensures packed { MatchResult result (IsPackedFrom S.arithmetic.zero format shape.now entries.now.list)
            (IsRefusalOf format shape.now entries.now.list) }
        ensures whole { IfOk result (λ packed. IsStorage packed) }
        ensures words { IfOk result (λ packed. All (λ v. v < 2 ^ 64) packed.values) }
    {
        let Ok(order) = arrange(alloc, format.levels(), entries) else {
            return Err(PackRefusal::Memory);
        };
        let rows = EntryRows {
            format: format.levels(),
            entries,
            order: &order,
        };
        let packed = match pack_table::<S, EntryRows>(
            alloc,
            format.levels(),
            shape.ranges(),
            &rows,
        ) {
            Ok(packed) => packed,
            Err(refusal) => return Err(refusal),
        };
        let PackedTable { levels, values } = packed;
        Ok(Tensor {
            format,
            levels,
            values,
        })
    }

    /// The number of modes, and of levels.
    pub fn order(&self) -> usize
        ensures { result ≡ length self.now.format }
    {
        self.format.order()
    }

    /// The kind and the mode of each level, from the top.
    pub fn format(&self) -> &[FormatLevel]
        ensures value { result.now ≡ self.now.format }
        ensures storage { IsStorage self.now }
    {
        self.format.levels()
    }

    /// The levels, from the top.
    pub fn levels(&self) -> &[StorageLevel]
        ensures { result.now ≡ self.now.levels }
    {
        self.levels.as_slice()
    }

    /// The values at the positions of the last level, or the one value of a tensor of order 0.
    pub fn values(&self) -> &[u64]
        ensures { result.now ≡ self.now.values }
    {
        self.values.as_slice()
    }

    /// The value at the coordinates, one a mode: the zero of `S` where nothing is stored there. It takes no memory.
    pub fn at<S: Semiring>(&self, coords: &[u64]) -> u64
        requires { length coords.now ≡ length self.now.format }
        ensures stored { (pos : ℕ) → EndsAt self.now coords.now pos → result ≡ slice_index self.now.values pos }
        ensures absent { ((pos : ℕ) → EndsAt self.now coords.now pos → ⊥) → result ≡ S.arithmetic.zero }
    {
        value_at(
            self.levels.as_slice(),
            self.format.levels(),
            self.values.as_slice(),
            coords,
            S::zero(),
        )
    }

    /// The paths as entries that increase, those of value zero too, with the values where they end. `S` is what the values are
    /// added by, but no two paths have the same coordinates. Refused for want of memory alone.
    pub fn to_entries<S: Semiring>(&self, alloc: Global) -> Result<Entries, AllocError>
        ensures { IfOk result (ListsPaths S.arithmetic self.now) }
    {
        let places = levels_of_modes(alloc, self.format.levels())?;
        let mut path = Vec::new(alloc);
        let mut entries = Entries::new(alloc, self.format.order())?;
        let top = Span { lo: 0, hi: 1 };
        let levels = self.levels.as_slice();
        let values = self.values.as_slice();
        append_paths(
            alloc,
            levels,
            0,
            top,
            values,
            &places,
            &mut path,
            &mut entries,
        )?;
        sort_entries::<S>(&mut entries)?;
        Ok(entries)
    }

    /// The format, as one value.
    pub fn whole_format(&self) -> &Format
        ensures { result.now ≡ self.now.format }
    {
        &self.format
    }

    /// The tensor of these levels and values. It takes no memory.
    pub fn from_levels(format: Format, levels: Items<StorageLevel>, values: Items<u64>) -> Tensor
        requires { IsStorage (storage_of format levels values) }
        ensures { result ≡ storage_of format levels values }
    {
        Tensor {
            format,
            levels,
            values,
        }
    }
}
