//! Operands, lent level by level.
ghost use Rattle.std.specs.Prelude.{◌≡◌, IfOk, map};
ghost use Rattle.machine_starts.specs.Lending.{lent_of, parts_of};

use lent_arrays::Operand;
use std::alloc::{AllocError, Global};
use tensor_storage::Tensor;

/// The levels and values of a tensor.
fn lent_operand(tensor: &Tensor) -> Operand
    ensures { lent_of result ≡ parts_of tensor.now }
{
    Operand {
        levels: tensor.levels(),
        values: tensor.values(),
    }
}

/// The levels and values of tensors. Refused for want of memory alone.
pub fn lent_operands(alloc: Global, tensors: &[Tensor]) -> Result<Vec<Operand>, AllocError>
    ensures { IfOk result (λ os. map lent_of os.items ≡ map parts_of tensors.now) }
{
    let mut operands = Vec::with_capacity(alloc, tensors.len())?;
    for tensor in tensors {
        operands.push(lent_operand(tensor))?;
    }
    Ok(operands)
}
