//! `Builder`: takes the arrays of a tensor's levels, and makes the tensor.
ghost use Rattle.std.specs.Prelude.{◌≡◌, ◌≤◌, ◌-◌, List, [], All, length, replicate, slice_set, vec_capacity};
ghost use Rattle.std.specs.Prelude.{Decides, IfOk, IsOk, MatchOption};
ghost use Rattle.limits.specs.Limits.{greatest_position_count};
ghost use Rattle.format_spec.specs.Formats.{IsFormat, letters_of};
ghost use Rattle.tensor_storage.specs.Handed.{no_words};
ghost use Rattle.tensor_storage.specs.Storages.{in_level_order};
ghost use Rattle.tensor_storage.specs.declared.level.StorageLevel.{StorageLevel as Level};
ghost use Rattle.storage_builder.specs.Building.{AreDense, dense_room, MayFinish};
ghost use Rattle.storage_builder.specs.Checked.{HaveLevels, IsWhole, IsMadeOf};
ghost use Rattle.storage_builder.specs.Made.{AllAlike, AreHandedOver};

use crate::paths::have_paths;
use crate::sizes::level_sizes;
use format_spec::{Format, FormatLevel};
use level_checks::{is_level, level_positions};
use limits::greatest_positions;
use seg_buffer::Segment;
use std::alloc::{AllocError, Global};
use std::marker::Model;
use std::mem;
use storage_arrays::positions_of;
use tensor_map::Shape;
use tensor_storage::{LevelWords, StorageLevel, Tensor};
use trees::Items;

/// How many values dense levels of these ranges have.
fn room_for(sizes: &[u64]) -> u64
    requires { All (λ size. size ≤ greatest_position_count) sizes.now }
    ensures room { result ≡ dense_room 1 sizes.now }
    ensures small { result ≤ greatest_position_count }
{
    let mut count = 1;
    for size in sizes {
        let more = count as u128 * *size as u128;
        if more > greatest_positions() as u128 {
            return 0;
        }
        count = more as u64;
    }
    count
}

/// So many levels of which nothing was handed over.
fn no_parts(alloc: Global, count: usize) -> Result<Vec<LevelWords>, AllocError>
    ensures { IfOk result (λ parts. parts.items ≡ replicate count no_words) }
{
    let mut parts = Vec::new(alloc);
    for _level in 0..count {
        parts.push(LevelWords::none(alloc))?;
    }
    Ok(parts)
}

/// The levels of the words that were handed over.
fn make_levels(
    alloc: Global,
    format: &[FormatLevel],
    sizes: &[u64],
    mut parts: Vec<LevelWords>,
    mut levels: Vec<StorageLevel>,
) -> Result<Vec<StorageLevel>, AllocError>
    requires sizes_long { length sizes.now ≡ length format.now }
    requires parts_long { length parts.items ≡ length format.now }
    requires small { All (λ size. size ≤ greatest_position_count) sizes.now }
    requires empty { levels.items ≡ [] }
    requires room { length format.now ≤ vec_capacity levels }
    requires ready { (ls : List Level) × AreHandedOver (letters_of format.now) sizes.now parts.items 1 ls }
    ensures made { IfOk result (λ levels. (ls : List Level) → AreHandedOver (letters_of format.now) sizes.now parts.items 1 ls
        → AllAlike ls levels.items) }
    ensures dense { AreDense format.now → IsOk result }
{
    let mut parents = 1;
    for number in 0..format.len() {
        let letter = format[number].letter;
        let part = mem::replace(&mut parts[number], LevelWords::none(alloc));
        let level = part.into_level(alloc, letter, sizes[number], parents)?;
        parents = positions_of(&level, parents);
        levels.push_reserved(level);
    }
    Ok(levels)
}

/// Whether there are levels of these kinds and ranges, one below another, that have the words which were handed over, and whether the
/// last of them has so many positions.
fn have_levels(format: &[FormatLevel], sizes: &[u64], parts: &[LevelWords], values: u64) -> bool
    requires sizes_long { length sizes.now ≡ length format.now }
    requires parts_long { length parts.now ≡ length format.now }
    requires small { All (λ size. size ≤ greatest_position_count) sizes.now }
    ensures { Decides result (HaveLevels (letters_of format.now) sizes.now parts.now 1 values) }
{
    let mut parents = 1;
    for number in 0..format.len() {
        let letter = format[number].letter;
        let size = sizes[number];
        let part = &parts[number];
        if !is_level(part, letter, size, parents) {
            return false;
        }
        parents = level_positions(part, letter, size, parents);
    }
    parents == values
}

/// The values of a segment, in a vector that has room for them or gets it.
fn fill(mut room: Vec<u64>, values: &Segment<u64>) -> Result<Vec<u64>, AllocError>
    requires { room.items ≡ [] }
    ensures values { IfOk result (λ filled. filled.items ≡ values.now.items) }
    ensures enough { length values.now.items ≤ vec_capacity room → IsOk result }
{
    room.reserve(values.len())?;
    let words = values.as_slice();
    for value in words {
        room.push_reserved(*value);
    }
    Ok(room)
}

/// A tensor in the making, whose arrays are handed over level by level.
#[derive(Drop)]
pub struct Builder {
    alloc: Global,
    format: Format,
    sizes: Vec<u64>,
    parts: Vec<LevelWords>,
    /// Room for the levels.
    levels: Vec<StorageLevel>,
    /// Room for the values where all levels are dense.
    values: Vec<u64>,
}

impl Model for Builder {
    ghost use Rattle.std.specs.Prelude.{◌≡◌, [], vec_capacity};
    ghost use Rattle.storage_builder.specs.Building.{Building, building, IsBuilding};

    ghost Value = { Building };

    ghost view = { λ b. building b.format b.sizes.items b.parts.items };

    ghost invariant = { λ b. IsBuilding b.format b.sizes.items b.parts.items (vec_capacity b.levels) (vec_capacity b.values)
        × (b.levels.items ≡ []) × (b.values.items ≡ []) };
}

impl Builder {
    ghost use Rattle.storage_builder.specs.Building.{Building, building};

    /// A tensor of this format and shape of which nothing was handed over yet. Refused for want of memory alone.
    pub fn new(alloc: Global, format: Format, shape: &Shape) -> Result<Builder, AllocError>
        requires { length shape.now ≡ length format }
        ensures { IfOk result
            (λ b. b ≡ building format (in_level_order format shape.now) (replicate (length format) no_words)) }
    {
        let sizes = level_sizes(alloc, format.levels(), shape.ranges())?;
        let parts = no_parts(alloc, format.order())?;
        let room = if format.is_all_dense() {
            room_for(&sizes)
        } else {
            0
        };
        let levels = Vec::with_capacity(alloc, format.order())?;
        let values = Vec::with_capacity(alloc, room as usize)?;
        Ok(Builder {
            alloc,
            format,
            sizes,
            parts,
            levels,
            values,
        })
    }

    /// Hands over the words of a level, of which the top one is number 1. It takes no memory.
    pub fn hand_over(&mut self, level: usize, words: LevelWords)
        requires first { 1 ≤ level }
        requires last { level ≤ length self.old.format }
        ensures { self.new ≡ building self.old.format self.old.sizes (slice_set self.old.parts (level - 1) words) }
    {
        self.parts[level - 1] = words;
    }

    /// The tensor of what was handed over, and of these values: its levels are those that have the words, but for their room. Refused
    /// for want of memory alone, and never where all levels are dense.
    pub fn finish(self, values: Segment<u64>) -> Result<Tensor, AllocError>
        requires { MayFinish self values.items }
        ensures levels { IfOk result (λ t. (ls : List Level) → AreHandedOver (letters_of self.format) self.sizes self.parts 1 ls
            → AllAlike ls t.levels) }
        ensures others { IfOk result (λ t. (t.format ≡ self.format) × (t.values ≡ values.items)) }
        ensures dense { AreDense self.format → IsOk result }
    {
        let Builder {
            alloc,
            format,
            sizes,
            parts,
            levels,
            values: room,
        } = self;
        let levels = make_levels(alloc, format.levels(), &sizes, parts, levels)?;
        let values = fill(room, &values)?;
        Ok(Tensor::from_levels(format, Items::from_vec(levels), Items::from_vec(values)))
    }

    /// The tensor of what was handed over, and of these values, where nothing is known of them: none exactly where they make no storage
    /// that keeps every rule, with `nothing` at each value where no path ends. Refused for want of memory alone.
    pub fn finish_checked(
        self,
        nothing: u64,
        values: Segment<u64>,
    ) -> Result<Option<Tensor>, AllocError>
        ensures { IfOk result (λ made. MatchOption made (IsWhole nothing self values.items → ⊥)
            (λ t. IsWhole nothing self values.items × IsMadeOf self values.items t)) }
    {
        let Builder {
            alloc,
            format,
            sizes,
            parts,
            levels,
            values: room,
        } = self;
        if !have_levels(format.levels(), &sizes, &parts, values.len() as u64) {
            return Ok(None);
        }
        let levels = make_levels(alloc, format.levels(), &sizes, parts, levels)?;
        let mut copies = fill(Vec::new(alloc), &values)?;
        if !have_paths(alloc, &levels, nothing, &mut copies)? {
            return Ok(None);
        }
        let values = fill(room, &values)?;
        let levels = Items::from_vec(levels);
        let values = Items::from_vec(values);
        Ok(Some(Tensor::from_levels(format, levels, values)))
    }
}
