//! The entries of a result, and its shape.
ghost use Rattle.std.specs.Prelude.{◌≡◌, ◌≤◌, All, length, map, slice_index, IfOk};
ghost use Rattle.limits.specs.Limits.{greatest_order, greatest_position_count};
ghost use Rattle.index_notation.specs.Statement.{IsWellNamed};
ghost use Rattle.tensor_map.specs.Entries.{AreEntries};
ghost use Rattle.kernel_runs.specs.Steps.{ListsNonzero};

use index_notation::Statement;
use numbers::Semiring;
use operand_packing::sizes_of;
use std::alloc::{AllocError, Global};
use tensor_map::{Entries, Shape};
use tensor_storage::Tensor;

/// The values of a tensor that aren't zero, in lexicographic order of their coordinates. Refused for want of memory alone.
pub(crate) fn entries_of<S: Semiring>(alloc: Global, tensor: &Tensor) -> Result<Entries, AllocError>
    ensures lists { IfOk result (ListsNonzero S.arithmetic tensor.now) }
    ensures entries { IfOk result AreEntries }
{
    let mut entries = tensor.to_entries::<S>(alloc)?;
    entries.nonzero::<S>();
    Ok(entries)
}

/// The ranges of the left side's variables. Refused for want of memory alone.
pub(crate) fn shape_of(
    alloc: Global,
    statement: &Statement,
    ranges: &[u64],
) -> Result<Shape, AllocError>
    requires named { IsWellNamed statement.now }
    requires short { length statement.now.left.vars ≤ greatest_order }
    requires small { All (λ range. range ≤ greatest_position_count) ranges.now }
    ensures { IfOk result (λ shape. shape ≡ map (slice_index ranges.now) statement.now.left.vars) }
{
    let sizes = sizes_of(alloc, statement, ranges, 0, statement.left.vars.len())?;
    let shape = Shape::new(alloc, &sizes).unwrap();
    Ok(shape)
}
