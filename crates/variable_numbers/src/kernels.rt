// Kernels.
ghost use Rattle.std.specs.Prelude.{◌≡◌, IfOk};
ghost use Rattle.simplifier.specs.Refines.{AnyState, RefinesKernel};

use crate::appearances::meet_code;
use crate::refusal::Refusal;
use crate::statements::number_code;
use crate::table::Numbers;
use kernel_code::Kernel;
use std::alloc::{AllocError, Global};

/// A kernel that does the same wherever this one isn't stuck, whose variables are numbered from 0 on, without holes, in the order in
/// which they first stand in its text; a variable that a statement sets stands before those of its expressions. A kernel with a variable
/// from 2^16 on stays as it is. Refused only for want of memory. It takes time linear in the kernel's size and its greatest variable,
/// and calls itself as deep as the kernel's statements and expressions are nested.
pub fn number_variables(alloc: Global, kernel: Kernel) -> Result<Kernel, AllocError>
    ensures { IfOk result (λ k. RefinesKernel AnyState k kernel) }
{
    let mut numbers = Numbers::new(alloc);
    meet_code(kernel.body.as_slice(), &mut numbers)?;
    match number_code(alloc, kernel.body.as_slice(), &numbers) {
        Ok(body) => Ok(Kernel { body, ..kernel }),
        Err(Refusal::NoNumber) => Ok(kernel),
        Err(Refusal::Memory(error)) => Err(error),
    }
}
