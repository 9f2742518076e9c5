//! The rows of a scratch list, while they are sorted.
ghost use Rattle.std.specs.Prelude.{◌≡◌, length, map, IfOk, OnOk};
ghost use Rattle.kernel_code.specs.Rows.{list_rows, sorted_rows};
ghost use Rattle.machine_parts.specs.Rows.{as_row};

use seg_buffer::Segment;
use std::alloc::{AllocError, Global};

/// A row of a scratch list.
#[derive(Clone, Copy, Drop)]
pub struct ScratchRow {
    pub coordinate: u64,
    pub position: u64,
}

/// The rows of two columns that are equally long.
pub fn rows_of_list(
    alloc: Global,
    coordinates: &[u64],
    positions: &[u64],
) -> Result<Vec<ScratchRow>, AllocError>
    requires { length coordinates.now ≡ length positions.now }
    ensures { IfOk result (λ rows. map as_row rows.items ≡ list_rows coordinates.now positions.now) }
{
    let mut rows = Vec::with_capacity(alloc, coordinates.len())?;
    for i in 0..coordinates.len() {
        rows.push(ScratchRow {
            coordinate: coordinates[i],
            position: positions[i],
        })?;
    }
    Ok(rows)
}

/// Sorts rows by coordinate; those with equal ones stay in order. Refused for want of memory, the rows
/// are as before.
pub fn sort_rows(rows: &mut Vec<ScratchRow>) -> Result<(), AllocError>
    ensures { OnOk result (map as_row rows.new.items ≡ sorted_rows (map as_row rows.old.items)) }
{
    rows.sort_by_key(|row| row.coordinate)?;
    Ok(())
}

/// The coordinates of rows.
pub fn coordinates_of(alloc: Global, rows: &[ScratchRow]) -> Result<Segment<u64>, AllocError>
    ensures { IfOk result (λ words. words.items ≡ map (λ r. r.coordinate) rows.now) }
{
    let mut words = Segment::with_room(alloc, rows.len())?;
    for row in rows {
        words.push_reserved(row.coordinate);
    }
    Ok(words)
}

/// The positions of rows.
pub fn positions_of(alloc: Global, rows: &[ScratchRow]) -> Result<Segment<u64>, AllocError>
    ensures { IfOk result (λ words. words.items ≡ map (λ r. r.position) rows.now) }
{
    let mut words = Segment::with_room(alloc, rows.len())?;
    for row in rows {
        words.push_reserved(row.position);
    }
    Ok(words)
}
