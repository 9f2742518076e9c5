//! Where a kernel keeps the variables and the accesses of a statement before all loops.
ghost use Rattle.std.specs.Prelude.{◌≡◌, IfOk, length, map, replicate};
ghost use Rattle.dense_results.specs.Kernels.{AreAtBase};

use index_notation::{Access, Statement};
use std::alloc::{AllocError, Global};
use term_code::Places;
use trees::Items;

/// The numbers of the accesses' tensors. Refused only for want of memory.
fn tensors_of(alloc: Global, accesses: &[Access]) -> Result<Items<u64>, AllocError>
    ensures { IfOk result (λ tensors. tensors ≡ map (λ a. a.tensor) accesses.now) }
{
    let mut tensors = Items::new(alloc);
    for access in accesses {
        tensors.push(access.tensor as u64)?;
    }
    Ok(tensors)
}

/// Where the variables and the accesses of a statement are kept before all loops: in three variables from `base` on. Refused only for
/// want of memory. The last tensors stand for the statement's sums.
pub(crate) fn first_places(
    alloc: Global,
    statement: &Statement,
    base: u64,
) -> Result<Places, AllocError>
    ensures variables { IfOk result (λ places. places.variables ≡ replicate (length statement.now.vars) base) }
    ensures accesses { IfOk result (AreAtBase statement.now base) }
{
    let tensors = tensors_of(alloc, statement.accesses.as_slice())?;
    let real = statement.tensors.len().saturating_sub(statement.sums.len());
    let places = Places::new(
        alloc,
        statement.vars.len(),
        tensors.as_slice(),
        real as u64,
        base,
    )?;
    Ok(places)
}
