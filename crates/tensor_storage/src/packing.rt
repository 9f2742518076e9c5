ghost use Rattle.std.specs.Prelude.{◌≡◌, ◌≢◌, ◌<◌, ◌≤◌, ◌+◌, ◌^◌, ℕ, List, All, length, drop, replicate, slice_index};
ghost use Rattle.std.specs.Prelude.{true, OnOk};
ghost use Rattle.std.specs.List.{range_with_len};
ghost use Rattle.std.specs.Prelude.{IfOk, MatchResult};
ghost use Rattle.limits.specs.Limits.{greatest_position_count};
ghost use Rattle.format_spec.specs.Formats.{letters_of, IsFormat};
ghost use Rattle.level_core.specs.Kinds.{capabilities, properties};
ghost use Rattle.level_rows.specs.Rows.{rows_at};
ghost use Rattle.level_rows.specs.Filling.{AreNeeded, MayFill, FillAnswer, places_once};
ghost use Rattle.level_rows.specs.Runs.{told_by};
ghost use Rattle.level_rows.specs.Tables.{Increase};
ghost use Rattle.level_rows.specs.Values.{StoresValues};
ghost use Rattle.tensor_storage.specs.Counts.{positions_of};
ghost use Rattle.tensor_storage.specs.Packed.{ArePacked, IsRefusal};
ghost use Rattle.tensor_storage.specs.Places.{places_in, PlacedAnswer};
ghost use Rattle.tensor_storage.specs.Stands.{IsPacked};
ghost use Rattle.tensor_storage.specs.Storages.{IsStorage, storage_of, in_level_order};
ghost use Rattle.tensor_storage.specs.Tables.{AreBelow, keys_of, level_column};
ghost use Rattle.tensor_storage.specs.Levels.{meaning};

use crate::kinds::chain_end;
use crate::level::{StorageLevel, new_level};
use crate::places::{
    LentPlaces, Places, are_first, are_own, kept, lent_places, repeated, taken_once, told,
};
use crate::table::{ColumnRows, LevelRows, RowTable};
use format_spec::FormatLevel;
use level_core::{Letter, LevelKind, caps_of};
use level_rows::{
    FillRefusal, fill_first, fill_level, fill_numbered, fill_once, fill_runs, store_values,
};
use numbers::Semiring;
use std::alloc::{AllocError, Global};
use trees::Items;

/// Why a tensor isn't packed.
#[derive(Clone, Copy, Debug, PartialEq, Eq, Drop)]
pub enum PackRefusal {
    /// Memory was wanted.
    Memory,
    /// The level, of which the top one is number 1, is the first that would have more positions than may be. It would have so many.
    SizeLimit { level: usize, count: u128 },
}

/// The levels of a format with the rows of a table, and how many positions the last one has and each row's.
#[derive(Drop)]
struct PackedLevels<'a> {
    levels: Items<StorageLevel>,
    positions: u64,
    places: Places<'a>,
}

/// How many positions a level has, and each row's.
#[derive(Drop)]
struct Filled<'a> {
    count: u64,
    places: Places<'a>,
}

/// Whether rows that differ at the first `levels` have their own numbers as positions at a level of this kind, where they begin positions
/// by what differs at the first `through`.
fn numbers_rows(letter: Letter, through: usize, levels: usize) -> bool
    ensures { result ≡ true → (levels ≤ through) × ((capabilities letter).append ≡ true) }
{
    if through < levels {
        return false;
    }
    caps_of(letter).append
}

/// Whether it is known of a level, the last of so many, that rows have their own numbers as positions there: at any other the next level
/// asks for their list.
fn numbers_last(letter: Letter, level: usize, through: usize, levels: usize) -> bool
    requires { level < through }
    ensures { result ≡ true → (levels ≤ through) × ((capabilities letter).append ≡ true) }
{
    if level + 1 < levels {
        return false;
    }
    numbers_rows(letter, through, levels)
}

/// Whether a level takes a coordinate for each run of its column: where it is on top and appended to, and tells its rows apart alone, of
/// which there are some.
fn takes_runs(places: &Places<'_>, letter: Letter, through: usize, column: &[u32]) -> bool
    ensures { result ≡ true → (through ≡ 1) × (places_in places.now ≡ replicate (length (places_in places.now)) 0)
        × ((capabilities letter).append ≡ true) × (0 < length column.now) }
{
    if through != 1 {
        return false;
    }
    if column.is_empty() {
        return false;
    }
    if !are_first(places) {
        return false;
    }
    caps_of(letter).append
}

/// Gives a new level its rows, below so many parents, as `fill_level` does. The rows increase by so many `levels`. Where the table has
/// the coordinates next to one another, they are taken from there.
fn fill_stored<T: RowTable>(
    stored: &mut StorageLevel,
    size: u64,
    parents: u64,
    rows: &LevelRows<T>,
    levels: usize,
    places: &mut [u64],
) -> Result<u64, FillRefusal>
    requires size { size ≡ meaning.size stored.old }
    requires range { size ≤ greatest_position_count }
    requires parents { parents ≤ greatest_position_count }
    requires rows { MayFill meaning parents
        (rows_at (keys_of (T.table rows.now.table.now) rows.now.level rows.now.through) places.old) stored.old }
    requires many { length places.old ≡ (T.table rows.now.table.now).count }
    requires among { rows.now.level < rows.now.through }
    requires order { Increase (T.table rows.now.table.now).coords levels (T.table rows.now.table.now).count }
    ensures { (needed : ℕ) × (most : ℕ)
        × AreNeeded (meaning.kind stored.old) (meaning.size stored.old) parents
        (rows_at (keys_of (T.table rows.now.table.now) rows.now.level rows.now.through) places.old) needed most
        × FillAnswer meaning parents (rows_at (keys_of (T.table rows.now.table.now) rows.now.level rows.now.through) places.old)
        needed most places.old places.new stored.old stored.new result }
{
    match rows.table.column(rows.level) {
        Some(column) => {
            let narrow = ColumnRows {
                table: rows.table,
                level: rows.level,
                through: rows.through,
                column,
                all_begin: rows.through >= levels,
            };
            fill_level(stored, size, parents, &narrow, places)
        }
        None => fill_level(stored, size, parents, rows, places),
    }
}

/// Gives a new level its rows, as `fill_level` does, with the positions of all rows in a list.
fn fill_told<'a, T: RowTable>(
    alloc: Global,
    stored: &mut StorageLevel,
    size: u64,
    parents: u64,
    rows: &LevelRows<'a, T>,
    levels: usize,
    places: Places<'a>,
) -> Result<Filled<'a>, FillRefusal>
    requires size { size ≡ meaning.size stored.old }
    requires range { size ≤ greatest_position_count }
    requires parents { parents ≤ greatest_position_count }
    requires rows { MayFill meaning parents
        (rows_at (keys_of (T.table rows.now.table.now) rows.now.level rows.now.through) (places_in places)) stored.old }
    requires many { length (places_in places) ≡ (T.table rows.now.table.now).count }
    requires among { rows.now.level < rows.now.through }
    requires order { Increase (T.table rows.now.table.now).coords levels (T.table rows.now.table.now).count }
    ensures { PlacedAnswer parents
        (rows_at (keys_of (T.table rows.now.table.now) rows.now.level rows.now.through) (places_in places.entry))
        (places_in places.entry) stored.old stored.new result }
{
    let Ok(mut list) = told(alloc, places) else {
        return Err(FillRefusal::Memory);
    };
    let own = numbers_last(stored.letter(), rows.level, rows.through, levels);
    match fill_stored(stored, size, parents, rows, levels, &mut list) {
        Ok(count) => Ok(Filled {
            count,
            places: kept(own, list),
        }),
        Err(refusal) => Err(refusal),
    }
}

/// Gives a new level that is appended to its rows, of which each begins a position, where their coordinates and the positions of their
/// parents are told by columns: no position is told.
fn fill_apart<T: RowTable>(
    stored: &mut StorageLevel,
    parents: u64,
    rows: &LevelRows<T>,
    levels: usize,
    column: &[u32],
    above: LentPlaces<'_>,
) -> Result<u64, FillRefusal>
    requires parents { parents ≤ greatest_position_count }
    requires rows { MayFill meaning parents
        (rows_at (keys_of (T.table rows.now.table.now) rows.now.level rows.now.through) (told_by above.counted above.column.now))
        stored.old }
    requires many { length above.column.now ≡ (T.table rows.now.table.now).count }
    requires among { rows.now.level < rows.now.through }
    requires order { Increase (T.table rows.now.table.now).coords levels (T.table rows.now.table.now).count }
    requires apart { levels ≤ rows.now.through }
    requires append { (capabilities (meaning.kind stored.old)).append ≡ true }
    requires column { column.now ≡ level_column (T.table rows.now.table.now) rows.now.level }
    ensures { (needed : ℕ) × (most : ℕ) × (after : List ℕ)
        × AreNeeded (meaning.kind stored.old) (meaning.size stored.old) parents
        (rows_at (keys_of (T.table rows.now.table.now) rows.now.level rows.now.through)
        (told_by above.entry.counted above.entry.column.now)) needed most
        × FillAnswer meaning parents
        (rows_at (keys_of (T.table rows.now.table.now) rows.now.level rows.now.through)
        (told_by above.entry.counted above.entry.column.now))
        needed most (told_by above.entry.counted above.entry.column.now) after stored.old stored.new result
        × OnOk result (after ≡ range_with_len 0 (T.table rows.now.table.now).count) }
{
    let narrow = ColumnRows {
        table: rows.table,
        level: rows.level,
        through: rows.through,
        column,
        all_begin: true,
    };
    fill_numbered(
        stored,
        parents,
        &narrow,
        column,
        above.column,
        above.counted,
    )
}

/// Gives a new level that is appended to its rows, of which each begins a position, where their coordinates stand in a column: at once,
/// below the first parent or, where `each` says so, each row below its own.
fn fill_whole<T: RowTable>(
    stored: &mut StorageLevel,
    parents: u64,
    rows: &LevelRows<T>,
    levels: usize,
    column: &[u32],
    each: bool,
) -> Result<u64, FillRefusal>
    requires parents { parents ≤ greatest_position_count }
    requires each { each ≡ true → (properties (meaning.kind stored.old)).branchless ≡ true }
    requires rows { MayFill meaning parents
        (rows_at (keys_of (T.table rows.now.table.now) rows.now.level rows.now.through)
        (places_once each (T.table rows.now.table.now).count)) stored.old }
    requires among { rows.now.level < rows.now.through }
    requires order { Increase (T.table rows.now.table.now).coords levels (T.table rows.now.table.now).count }
    requires apart { levels ≤ rows.now.through }
    requires append { (capabilities (meaning.kind stored.old)).append ≡ true }
    requires column { column.now ≡ level_column (T.table rows.now.table.now) rows.now.level }
    ensures { (needed : ℕ) × (most : ℕ) × (after : List ℕ)
        × AreNeeded (meaning.kind stored.old) (meaning.size stored.old) parents
        (rows_at (keys_of (T.table rows.now.table.now) rows.now.level rows.now.through)
        (places_once each (T.table rows.now.table.now).count)) needed most
        × FillAnswer meaning parents (rows_at (keys_of (T.table rows.now.table.now) rows.now.level rows.now.through)
        (places_once each (T.table rows.now.table.now).count))
        needed most (places_once each (T.table rows.now.table.now).count) after stored.old stored.new result
        × OnOk result (after ≡ range_with_len 0 (T.table rows.now.table.now).count) }
{
    let narrow = ColumnRows {
        table: rows.table,
        level: rows.level,
        through: rows.through,
        column,
        all_begin: true,
    };
    fill_once(stored, parents, &narrow, column, each)
}

/// Gives a new level its rows, as `fill_level` does, some of which may share a position. Where the level on top is appended to, runs of its
/// column share positions, and no position is told.
fn fill_shared<'a, T: RowTable>(
    alloc: Global,
    stored: &mut StorageLevel,
    size: u64,
    parents: u64,
    rows: &LevelRows<'a, T>,
    levels: usize,
    places: Places<'a>,
    column: &'a [u32],
) -> Result<Filled<'a>, FillRefusal>
    requires size { size ≡ meaning.size stored.old }
    requires range { size ≤ greatest_position_count }
    requires parents { parents ≤ greatest_position_count }
    requires rows { MayFill meaning parents
        (rows_at (keys_of (T.table rows.now.table.now) rows.now.level rows.now.through) (places_in places)) stored.old }
    requires many { length (places_in places) ≡ (T.table rows.now.table.now).count }
    requires among { rows.now.level < rows.now.through }
    requires order { Increase (T.table rows.now.table.now).coords levels (T.table rows.now.table.now).count }
    requires column { column.now ≡ level_column (T.table rows.now.table.now) rows.now.level }
    ensures { PlacedAnswer parents
        (rows_at (keys_of (T.table rows.now.table.now) rows.now.level rows.now.through) (places_in places.entry))
        (places_in places.entry) stored.old stored.new result }
{
    if !takes_runs(&places, stored.letter(), rows.through, column) {
        return fill_told(alloc, stored, size, parents, rows, levels, places);
    }
    match fill_runs(stored, parents, rows, column) {
        Ok(count) => Ok(Filled {
            count,
            places: Places::Runs(column),
        }),
        Err(refusal) => Err(refusal),
    }
}

/// Gives a new level its rows, as `fill_level` does, and tells no position where it follows from what stands in memory already: that of a
/// row at a dense level on top is its coordinate, and one that is appended has its own number where each row begins a position.
fn fill_placed<'a, T: RowTable>(
    alloc: Global,
    stored: &mut StorageLevel,
    size: u64,
    parents: u64,
    rows: &LevelRows<'a, T>,
    levels: usize,
    places: Places<'a>,
) -> Result<Filled<'a>, FillRefusal>
    requires size { size ≡ meaning.size stored.old }
    requires range { size ≤ greatest_position_count }
    requires parents { parents ≤ greatest_position_count }
    requires rows { MayFill meaning parents
        (rows_at (keys_of (T.table rows.now.table.now) rows.now.level rows.now.through) (places_in places)) stored.old }
    requires many { length (places_in places) ≡ (T.table rows.now.table.now).count }
    requires among { rows.now.level < rows.now.through }
    requires order { Increase (T.table rows.now.table.now).coords levels (T.table rows.now.table.now).count }
    ensures { PlacedAnswer parents
        (rows_at (keys_of (T.table rows.now.table.now) rows.now.level rows.now.through) (places_in places.entry))
        (places_in places.entry) stored.old stored.new result }
{
    let Some(column) = rows.table.column(rows.level) else {
        return fill_told(alloc, stored, size, parents, rows, levels, places);
    };
    if are_first(&places) && stored.props().full {
        return match fill_first(stored, size, parents, rows, column) {
            Ok(count) => Ok(Filled {
                count,
                places: Places::Column(column),
            }),
            Err(refusal) => Err(refusal),
        };
    }
    if !numbers_rows(stored.letter(), rows.through, levels) {
        return fill_shared(alloc, stored, size, parents, rows, levels, places, column);
    }
    if let Some(each) = taken_once(&places, stored.props().branchless) {
        return match fill_whole(stored, parents, rows, levels, column, each) {
            Ok(count) => Ok(Filled {
                count,
                places: Places::Own(column.len()),
            }),
            Err(refusal) => Err(refusal),
        };
    }
    let Some(above) = lent_places(&places) else {
        return fill_told(alloc, stored, size, parents, rows, levels, places);
    };
    match fill_apart(stored, parents, rows, levels, column, above) {
        Ok(count) => Ok(Filled {
            count,
            places: Places::Own(column.len()),
        }),
        Err(refusal) => Err(refusal),
    }
}

/// Packs the levels of a format one below another, and tells each row's position at the last level. `ranges` has the ranges of the modes.
fn pack_levels<'a, T: RowTable>(
    alloc: Global,
    format: &[FormatLevel],
    ranges: &[u64],
    table: &'a T,
) -> Result<PackedLevels<'a>, PackRefusal>
    requires format { IsFormat format.now }
    requires ranges { length ranges.now ≡ length format.now }
    requires small { All (λ range. range ≤ greatest_position_count) ranges.now }
    requires order { Increase (T.table table.now).coords (length format.now) (T.table table.now).count }
    requires below { AreBelow (T.table table.now) (in_level_order format.now ranges.now) }
    ensures { MatchResult result
        (λ packed. ArePacked meaning (letters_of format.now) (in_level_order format.now ranges.now) (T.table table.now)
        (length format.now) packed.levels (places_in packed.places) packed.positions × (packed.positions ≤ greatest_position_count))
        (IsRefusal (positions_of format.now ranges.now (T.table table.now))) }
{
    let mut levels = Items::new(alloc);
    let mut parents = 1;
    let mut places = Places::First(table.count());
    for level in 0..format.len() {
        let size = ranges[format[level].mode];
        let Ok(mut stored) = new_level(alloc, format[level].letter, size) else {
            return Err(PackRefusal::Memory);
        };
        let rows = LevelRows {
            table,
            level,
            through: chain_end(format, level),
        };
        match fill_placed(
            alloc,
            &mut stored,
            size,
            parents,
            &rows,
            format.len(),
            places,
        ) {
            Ok(filled) => {
                parents = filled.count;
                places = filled.places;
            }
            Err(FillRefusal::Memory) => return Err(PackRefusal::Memory),
            Err(FillRefusal::TooMany(count)) => {
                return Err(PackRefusal::SizeLimit {
                    level: level + 1,
                    count,
                });
            }
        }
        let Ok(()) = levels.push(stored) else {
            return Err(PackRefusal::Memory);
        };
    }
    Ok(PackedLevels {
        levels,
        positions: parents,
        places,
    })
}

/// The levels of a format with the rows of a table, and the values at the positions of the last one.
#[derive(Drop)]
pub(crate) struct PackedTable {
    pub(crate) levels: Items<StorageLevel>,
    pub(crate) values: Items<u64>,
}

/// Stores the value of each row at its place. All other values stay.
fn store_rows<T: RowTable>(table: &T, places: &[u64], values: &mut [u64])
    requires many { length places.now ≡ (T.table table.now).count }
    requires within { (i : ℕ) → i < (T.table table.now).count → slice_index places.now i < length values.old }
    requires apart { (i j : ℕ) → i < j → j < (T.table table.now).count → slice_index places.now i ≢ slice_index places.now j }
    ensures stored { StoresValues (T.table table.now).count (slice_index places.now) (T.table table.now).values values.old values.new }
    ensures words { All (λ v. v < 2 ^ 64) values.new }
{
    let rows = LevelRows {
        table,
        level: 0,
        through: 0,
    };
    store_values(&rows, places, values);
}

/// A copy of words. Refused for want of memory alone.
fn copy_of(alloc: Global, words: &[u64]) -> Result<Items<u64>, AllocError>
    ensures same { IfOk result (λ copy. copy ≡ words.now) }
    ensures words { IfOk result (λ copy. All (λ v. v < 2 ^ 64) copy) }
{
    let copy = Items::from_slice(alloc, words)?;
    Ok(copy)
}

/// The values of rows at their places, of so many positions, and the zero of `S` at any other. Refused for want of memory alone.
fn values_at<S: Semiring, T: RowTable>(
    alloc: Global,
    table: &T,
    places: &[u64],
    positions: u64,
) -> Result<Items<u64>, AllocError>
    requires many { length places.now ≡ (T.table table.now).count }
    requires within { (i : ℕ) → i < (T.table table.now).count → slice_index places.now i < positions }
    requires apart { (i j : ℕ) → i < j → j < (T.table table.now).count → slice_index places.now i ≢ slice_index places.now j }
    ensures stored { IfOk result (λ values. StoresValues (T.table table.now).count (slice_index places.now) (T.table table.now).values
        (replicate positions S.arithmetic.zero) values) }
    ensures words { IfOk result (λ values. All (λ v. v < 2 ^ 64) values) }
{
    let mut values = repeated(alloc, S::zero(), positions as usize)?;
    store_rows(table, places, &mut values);
    Ok(Items::from_vec(values))
}

/// The values of rows as `values_at` answers them. Where it is known that each place is its row's number, and the table has the values
/// next to one another, they are copied at once.
fn values_of<S: Semiring, T: RowTable>(
    alloc: Global,
    table: &T,
    places: Places<'_>,
    positions: u64,
) -> Result<Items<u64>, AllocError>
    requires many { length (places_in places) ≡ (T.table table.now).count }
    requires within { (i : ℕ) → i < (T.table table.now).count → slice_index (places_in places) i < positions }
    requires apart { (i j : ℕ) → i < j → j < (T.table table.now).count
        → slice_index (places_in places) i ≢ slice_index (places_in places) j }
    ensures stored { IfOk result (λ values. StoresValues (T.table table.now).count (slice_index (places_in places.entry))
        (T.table table.now).values (replicate positions S.arithmetic.zero) values) }
    ensures words { IfOk result (λ values. All (λ v. v < 2 ^ 64) values) }
{
    if are_own(&places) && table.count() as u64 == positions {
        if let Some(lent) = table.values() {
            let copied = copy_of(alloc, lent)?;
            return Ok(copied);
        }
    }
    let list = told(alloc, places)?;
    let values = values_at::<S, T>(alloc, table, &list, positions)?;
    Ok(values)
}

/// Packs the rows of a table, which increase in the order of the levels, with the zero of `S` for every other value. `ranges`
/// has the ranges of the modes.
pub(crate) fn pack_table<S: Semiring, T: RowTable>(
    alloc: Global,
    format: &[FormatLevel],
    ranges: &[u64],
    table: &T,
) -> Result<PackedTable, PackRefusal>
    requires format { IsFormat format.now }
    requires ranges { length ranges.now ≡ length format.now }
    requires small { All (λ range. range ≤ greatest_position_count) ranges.now }
    requires order { Increase (T.table table.now).coords (length format.now) (T.table table.now).count }
    requires below { AreBelow (T.table table.now) (in_level_order format.now ranges.now) }
    ensures packed { MatchResult result
        (λ packed. IsPacked S.arithmetic.zero format.now ranges.now (T.table table.now) (storage_of format.now packed.levels packed.values)
        × IsStorage (storage_of format.now packed.levels packed.values))
        (IsRefusal (positions_of format.now ranges.now (T.table table.now))) }
    ensures words { IfOk result (λ packed. All (λ v. v < 2 ^ 64) packed.values) }
{
    let packed = match pack_levels(alloc, format, ranges, table) {
        Ok(packed) => packed,
        Err(refusal) => return Err(refusal),
    };
    let PackedLevels {
        levels,
        positions,
        places,
    } = packed;
    let Ok(values) = values_of::<S, T>(alloc, table, places, positions) else {
        return Err(PackRefusal::Memory);
    };
    Ok(PackedTable { levels, values })
}
