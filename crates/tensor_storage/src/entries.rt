// The entries of a tensor as rows for the levels of a format.
ghost use Rattle.std.specs.Prelude.{◌≡◌, ◌<◌, ℕ, length, slice_index, IfOk, IfSome, IsTrue, OnOk, true};
ghost use Rattle.std.specs.Ordering.{nat_cmp, is_lt};
ghost use Rattle.std.specs.Cmp.Lexicographic.{slice_cmp};
ghost use Rattle.std.specs.List.{range_with_len};
ghost use Rattle.std.specs.List.Sorted.{IsPermutation, IsSortedBy};
ghost use Rattle.format_spec.specs.Formats.{IsFormat, modes_of};
ghost use Rattle.tensor_map.specs.Entries.{StrictlyIncreasing};
ghost use Rattle.tensor_storage.specs.Arranged.{level_coords, table_of, AreArranged};
ghost use Rattle.tensor_storage.specs.Columns.{column_of, AreColumns};
ghost use Rattle.tensor_storage.specs.EntryOrders.{numbers_of, HasColumns};
ghost use Rattle.tensor_storage.specs.Tables.{level_column};
ghost use Rattle.std.proofs.Props.{props};

use crate::table::RowTable;
use format_spec::FormatLevel;
use std::alloc::{AllocError, Global};
use std::cmp::Ordering;
use tensor_map::Entries;
use trees::Items;

/// The order of the entries of a tensor by their coordinates, level by level.
#[derive(Drop)]
pub(crate) enum EntryOrder {
    /// The entries stand in it.
    Own,
    /// Their numbers stand in it, and beside them the coordinates at each level, which are looked up once: the entries themselves
    /// stand far apart in memory.
    Sorted {
        numbers: Vec<usize>,
        columns: Items<Items<u64>>,
    },
}

/// The coordinate at a level of the entry of this number: zero where there is no such level or entry.
fn coordinate(format: &[FormatLevel], entries: &Entries, level: usize, number: usize) -> u64
    ensures { result ≡ slice_index (level_coords format.now entries.now.list number) level }
{
    if number >= entries.len() {
        return 0;
    }
    if level >= format.len() {
        return 0;
    }
    let mode = format[level].mode;
    if mode < entries.order() {
        entries.coordinate(number, mode)
    } else {
        0
    }
}

/// How two entries stand to one another by their coordinates, level by level.
fn compare_entries(format: &[FormatLevel], entries: &Entries, left: usize, right: usize) -> Ordering
    ensures { result ≡ slice_cmp nat_cmp (level_coords format.now entries.now.list left) (level_coords format.now entries.now.list right) }
{
    for level in 0..format.len() {
        let here = coordinate(format, entries, level, left);
        let there = coordinate(format, entries, level, right);
        match here.cmp(&there) {
            Ordering::Equal => {}
            unequal => return unequal,
        }
    }
    Ordering::Equal
}

/// Whether the levels store the modes in their order.
fn are_modes_in_order(format: &[FormatLevel]) -> bool
    ensures { IsTrue result → (level : ℕ) → level < length format.now → slice_index (modes_of format.now) level ≡ level }
{
    for level in 0..format.len() {
        if format[level].mode != level {
            return false;
        }
    }
    true
}

/// Whether no entry stands behind the next by the coordinates, level by level.
fn are_in_order(format: &[FormatLevel], entries: &Entries) -> bool
    ensures { result ≡ true → IsSortedBy (λ left right. is_lt (slice_cmp nat_cmp (level_coords format.now entries.now.list left)
        (level_coords format.now entries.now.list right))) (range_with_len 0 (length entries.now.list)) }
{
    for next in 1..entries.len() {
        if compare_entries(format, entries, next, next - 1) == Ordering::Less {
            return false;
        }
    }
    true
}

/// Whether entries that increase mode by mode stand in order level by level. Where the levels store the modes in their order, no
/// entry is read for it.
fn stand_in_order(format: &[FormatLevel], entries: &Entries) -> bool
    requires order { entries.now.order ≡ length format.now }
    requires increasing { StrictlyIncreasing entries.now.list }
    ensures { result ≡ true → IsSortedBy (λ left right. is_lt (slice_cmp nat_cmp (level_coords format.now entries.now.list left)
        (level_coords format.now entries.now.list right))) (range_with_len 0 (length entries.now.list)) }
{
    let _ = entries.len();
    if are_modes_in_order(format) {
        return true;
    }
    are_in_order(format, entries)
}

/// The numbers from 0 on, so many. Refused for want of memory alone.
fn numbers_below(alloc: Global, count: usize) -> Result<Vec<usize>, AllocError>
    ensures { IfOk result (λ numbers. numbers.items ≡ range_with_len 0 count) }
{
    let mut numbers = Vec::new(alloc);
    for number in 0..count {
        numbers.push(number)?;
    }
    Ok(numbers)
}

/// Sorts numbers of entries by the coordinates, level by level: from the last level up, and where two have the same coordinate
/// they stay as the levels below put them. Refused for want of memory alone.
fn sort_numbers(
    format: &[FormatLevel],
    entries: &Entries,
    numbers: &mut Vec<usize>,
) -> Result<(), AllocError>
    ensures moved { IsPermutation numbers.old.items numbers.new.items }
    ensures sorted { OnOk result (IsSortedBy (λ left right. is_lt (slice_cmp nat_cmp (level_coords format.now entries.now.list left)
        (level_coords format.now entries.now.list right))) numbers.new.items) }
{
    for level in (0..format.len()).rev() {
        numbers.sort_by_cached_key(|number| coordinate(format, entries, level, *number))?;
    }
    Ok(())
}

/// The coordinates at a level of the entries that numbers name. Refused for want of memory alone.
fn column(
    alloc: Global,
    format: &[FormatLevel],
    entries: &Entries,
    numbers: &[usize],
    level: usize,
) -> Result<Items<u64>, AllocError>
    ensures { IfOk result (λ column. column ≡ column_of format.now entries.now.list numbers.now level) }
{
    let mut column = Items::new(alloc);
    for number in numbers {
        column.push(coordinate(format, entries, level, *number))?;
    }
    Ok(column)
}

/// The coordinates of the entries that numbers name, level by level. Refused for want of memory alone.
fn columns_of(
    alloc: Global,
    format: &[FormatLevel],
    entries: &Entries,
    numbers: &[usize],
) -> Result<Items<Items<u64>>, AllocError>
    ensures { IfOk result (AreColumns format.now entries.now.list numbers.now) }
{
    let mut columns = Items::new(alloc);
    for level in 0..format.len() {
        columns.push(column(alloc, format, entries, numbers, level)?)?;
    }
    Ok(columns)
}

/// The order of the entries by their coordinates, level by level: where they don't stand in it, their numbers are sorted. Refused
/// for want of memory alone.
pub(crate) fn arrange(
    alloc: Global,
    format: &[FormatLevel],
    entries: &Entries,
) -> Result<EntryOrder, AllocError>
    requires format { IsFormat format.now }
    requires order { entries.now.order ≡ length format.now }
    requires increasing { StrictlyIncreasing entries.now.list }
    ensures arranged { IfOk result (λ order. AreArranged format.now entries.now.list (numbers_of (length entries.now.list) order)) }
    ensures columns { IfOk result (HasColumns format.now entries.now.list) }
{
    let count = entries.len();
    if stand_in_order(format, entries) {
        return Ok(EntryOrder::Own);
    }
    let mut numbers = numbers_below(alloc, count)?;
    sort_numbers(format, entries, &mut numbers)?;
    let columns = columns_of(alloc, format, entries, &numbers)?;
    Ok(EntryOrder::Sorted { numbers, columns })
}

/// The coordinates at a level of entries in their own order, where they stand next to one another.
fn lent_column<'a>(format: &[FormatLevel], entries: &'a Entries, level: usize) -> Option<&'a [u32]>
    ensures { IfSome result (λ column. column.now
        ≡ level_column (table_of format.now entries.now.list (range_with_len 0 (length entries.now.list))) level) }
{
    if level >= format.len() {
        return None;
    }
    let mode = format[level].mode;
    if mode >= entries.order() {
        return None;
    }
    entries.column(mode)
}

/// The entries of a tensor as the rows of a table, in an order of theirs.
#[derive(Drop)]
pub(crate) struct EntryRows<'a> {
    pub(crate) format: &'a [FormatLevel],
    pub(crate) entries: &'a Entries,
    pub(crate) order: &'a EntryOrder,
    ghost gathered: { HasColumns format.now entries.now.list order.now } by { Prim.hlevel props },
}

impl<'a> EntryRows<'a> {
    /// The number of the entry of a row.
    fn number(&self, row: usize) -> usize
        requires { row < length (numbers_of (length self.now.entries.now.list) self.now.order.now) }
        ensures { result ≡ slice_index (numbers_of (length self.now.entries.now.list) self.now.order.now) row }
    {
        match self.order {
            EntryOrder::Own => row,
            EntryOrder::Sorted { numbers, .. } => numbers[row],
        }
    }
}

impl<'a> RowTable for EntryRows<'a> {
    ghost table = { λ rows. table_of rows.format.now rows.entries.now.list
        (numbers_of (length rows.entries.now.list) rows.order.now) };

    fn count(&self) -> usize {
        match self.order {
            EntryOrder::Own => self.entries.len(),
            EntryOrder::Sorted { numbers, .. } => numbers.len(),
        }
    }

    fn coord(&self, level: usize, row: usize) -> u64 {
        match self.order {
            EntryOrder::Own => coordinate(self.format, self.entries, level, row),
            EntryOrder::Sorted { columns, .. } => match columns.get(level) {
                Some(column) => column.as_slice()[row],
                None => 0,
            },
        }
    }

    fn value(&self, row: usize) -> u64 {
        let number = self.number(row);
        if number < self.entries.len() {
            self.entries.value(number)
        } else {
            0
        }
    }

    fn column(&self, level: usize) -> Option<&[u32]> {
        match self.order {
            EntryOrder::Own => lent_column(self.format, self.entries, level),
            EntryOrder::Sorted { .. } => None,
        }
    }

    fn values(&self) -> Option<&[u64]> {
        match self.order {
            EntryOrder::Own => self.entries.values(),
            EntryOrder::Sorted { .. } => None,
        }
    }
}
