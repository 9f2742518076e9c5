//! The rows of a workspace, by the places of their keys, while they are sorted and summed.
ghost use Rattle.std.specs.Prelude.{◌≡◌, List, ℕ, map, reverse, IfOk, OnOk, slice_get, slice_index};
ghost use Rattle.machine_parts.specs.Rows.{row_of};
ghost use Rattle.kernel_code.specs.Rows.{compare_keys, keys_at, row_before, sorted_by, join_row, joined_rows, summed_rows};
ghost use Rattle.kernel_code.specs.Rows.{rows_from};

use numbers::Semiring;
use seg_buffer::Segment;
use std::alloc::{AllocError, Global};
use std::cmp::Ordering;

/// A row of a workspace: the place of its keys in their columns, and its value.
#[derive(Clone, Copy, Drop)]
pub struct PlacedRow {
    pub place: usize,
    pub value: u64,
}

/// The number of keys of a workspace, or none where the list has none for it.
pub fn number_of_keys(workspaces: &[u64], workspace: u64) -> Option<u64>
    ensures { result ≡ slice_get workspaces.now workspace }
{
    workspaces.get(workspace as usize).copied()
}

/// The word at an index, and zero past the end.
fn word_or_zero(words: &[u64], i: usize) -> u64
    ensures { result ≡ slice_index words.now i }
{
    words.get(i).copied().unwrap_or(0)
}

/// The order of the keys at two places of columns.
fn compare_places(columns: &[&[u64]], i: usize, j: usize) -> Ordering
    ensures { result ≡ compare_keys (keys_at (map (λ c. c.now) columns.now) i) (keys_at (map (λ c. c.now) columns.now) j) }
{
    for column in columns {
        let order = word_or_zero(column, i).cmp(&word_or_zero(column, j));
        if !order.is_eq() {
            return order;
        }
    }
    Ordering::Equal
}

/// The rows whose values these are.
fn placed_rows(alloc: Global, values: &[u64]) -> Result<Vec<PlacedRow>, AllocError>
    ensures { IfOk result (λ rows. (columns : List (List ℕ)) → map (row_of columns) rows.items ≡ rows_from columns 0 values.now) }
{
    let mut rows = Vec::with_capacity(alloc, values.len())?;
    for place in 0..values.len() {
        rows.push(PlacedRow {
            place,
            value: values[place],
        })?;
    }
    Ok(rows)
}

/// Sorts rows by their keys; those with equal ones stay in order. Refused for want of memory, the rows
/// are as before.
fn sort_places(columns: &[&[u64]], rows: &mut Vec<PlacedRow>) -> Result<(), AllocError>
    ensures { OnOk result (map (row_of (map (λ c. c.now) columns.now)) rows.new.items
        ≡ sorted_by row_before (map (row_of (map (λ c. c.now) columns.now)) rows.old.items)) }
{
    rows.sort_by(|p, q| compare_places(columns, p.place, q.place))?;
    Ok(())
}

/// Puts a row ahead of sums that stand last first. Refused for want of memory, the sums are open.
fn join_place<S: Semiring>(
    columns: &[&[u64]],
    row: PlacedRow,
    sums: &mut Vec<PlacedRow>,
) -> Result<(), AllocError>
    ensures { OnOk result (reverse (map (row_of (map (λ c. c.now) columns.now)) sums.new.items)
        ≡ join_row S.arithmetic (row_of (map (λ c. c.now) columns.now) row)
        (reverse (map (row_of (map (λ c. c.now) columns.now)) sums.old.items))) }
{
    let Some(next) = sums.pop() else {
        sums.push(row)?;
        return Ok(());
    };
    if compare_places(columns, row.place, next.place).is_eq() {
        sums.push(PlacedRow {
            place: next.place,
            value: S::plus(row.value, next.value),
        })?;
        return Ok(());
    }
    sums.push(next)?;
    sums.push(row)?;
    Ok(())
}

/// Adds the values of neighbours with equal keys.
fn join_places<S: Semiring>(
    alloc: Global,
    columns: &[&[u64]],
    rows: Vec<PlacedRow>,
) -> Result<Vec<PlacedRow>, AllocError>
    ensures { IfOk result (λ sums. map (row_of (map (λ c. c.now) columns.now)) sums.items
        ≡ joined_rows S.arithmetic (map (row_of (map (λ c. c.now) columns.now)) rows.items)) }
{
    let mut rest = rows;
    let mut sums = Vec::new(alloc);
    while let Some(row) = rest.pop() {
        join_place::<S>(columns, row, &mut sums)?;
    }
    sums.reverse();
    Ok(sums)
}

/// The rows of columns and values sorted by their keys, each key list once with the sum of its values.
pub fn sum_rows<S: Semiring>(
    alloc: Global,
    columns: &[&[u64]],
    values: &[u64],
) -> Result<Vec<PlacedRow>, AllocError>
    ensures { IfOk result (λ sums. map (row_of (map (λ c. c.now) columns.now)) sums.items
        ≡ summed_rows S.arithmetic (rows_from (map (λ c. c.now) columns.now) 0 values.now)) }
{
    let mut rows = placed_rows(alloc, values)?;
    sort_places(columns, &mut rows)?;
    join_places::<S>(alloc, columns, rows)
}

/// The words of a column at the places of rows.
pub fn words_at(
    alloc: Global,
    column: &[u64],
    rows: &[PlacedRow],
) -> Result<Segment<u64>, AllocError>
    ensures { IfOk result (λ words. words.items ≡ map (λ r. slice_index column.now r.place) rows.now) }
{
    let mut words = Segment::with_room(alloc, rows.len())?;
    for row in rows {
        words.push_reserved(word_or_zero(column, row.place));
    }
    Ok(words)
}

/// The values of rows.
pub fn values_of(alloc: Global, rows: &[PlacedRow]) -> Result<Segment<u64>, AllocError>
    ensures { IfOk result (λ words. words.items ≡ map (λ r. r.value) rows.now) }
{
    let mut words = Segment::with_room(alloc, rows.len())?;
    for row in rows {
        words.push_reserved(row.value);
    }
    Ok(words)
}
