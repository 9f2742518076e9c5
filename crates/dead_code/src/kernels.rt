// Kernels.
ghost use Rattle.std.specs.Prelude.{◌≡◌, IfOk};
ghost use Rattle.simplifier.specs.Refines.{AnyState, RefinesKernel};

use crate::dead::live_code;
use crate::live::none_of;
use crate::variables::count_variables;
use kernel_code::Kernel;
use std::alloc::{AllocError, Global};

/// A kernel that does the same wherever this one isn't stuck, without statements that give a variable a value which nothing reads, and
/// without choices whose bodies are both empty. Where the statement right behind alone reads a variable, and in one place, the value is
/// written there, unless it is a load of coordinates or makes that statement long. Refused only for want of memory. It takes time linear
/// in the kernel's size times the depth to which its loops are nested, and calls itself as deep as its statements and expressions are
/// nested.
pub fn drop_dead(alloc: Global, kernel: Kernel) -> Result<Kernel, AllocError>
    ensures { IfOk result (λ k. RefinesKernel AnyState k kernel) }
{
    let Kernel {
        semiring,
        workspaces,
        lists,
        body,
    } = kernel;
    let count = count_variables(body.as_slice());
    let mut live = none_of(alloc, count)?;
    let left = live_code(alloc, body.as_slice(), &mut live)?;
    Ok(Kernel {
        semiring,
        workspaces,
        lists,
        body: left,
    })
}
