//! The sizes of a tensor's modes, by the ranges of the variables.
ghost use Rattle.std.specs.Prelude.{◌≡◌, map, IfOk, slice_index, slice_get, option_to_list};
ghost use Rattle.expr_terms.specs.Ranges.{mode_size, greatest_of};
ghost use Rattle.operand_packing.specs.Operands.{mode_sizes};

use index_notation::{Access, Statement};
use std::alloc::{AllocError, Global};

/// The sizes of a tensor's modes, so many as its order: the size of a mode is the greatest range of the variables that
/// stand there in any access of the tensor, on either side of the statement, and 0 where none does. The ranges are
/// those of variable 0 and on. Refused only for want of memory.
pub fn sizes_of(
    alloc: Global,
    statement: &Statement,
    ranges: &[u64],
    tensor: usize,
    order: usize,
) -> Result<Vec<u64>, AllocError>
    ensures { IfOk result (λ sizes. sizes.items ≡ mode_sizes statement.now (slice_index ranges.now) tensor order) }
{
    let mut sizes = Vec::new(alloc);
    for mode in 0..order {
        sizes.push(size_of_mode(statement, ranges, tensor, mode))?;
    }
    Ok(sizes)
}

/// The size of one mode of a tensor.
fn size_of_mode(statement: &Statement, ranges: &[u64], tensor: usize, mode: usize) -> u64
    ensures { result ≡ mode_size statement.now (slice_index ranges.now) tensor mode }
{
    let mut size = 0;
    if statement.left.tensor == tensor {
        size = range_at(ranges, &statement.left, mode);
    }
    for access in statement.accesses.as_slice() {
        if access.tensor == tensor {
            size = size.max(range_at(ranges, access, mode));
        }
    }
    size
}

/// The range of the variable that stands at a mode of an access, 0 where none does.
fn range_at(ranges: &[u64], access: &Access, mode: usize) -> u64
    ensures { result ≡ greatest_of (map (slice_index ranges.now) (option_to_list (slice_get access.now.vars mode))) }
{
    let Some(var) = access.vars.get(mode) else {
        return 0;
    };
    ranges.get(*var).copied().unwrap_or(0)
}
