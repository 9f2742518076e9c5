// Kernels.
ghost use Rattle.std.specs.Prelude.{◌≡◌, IfOk};
ghost use Rattle.simplifier.specs.Refines.{AnyState, RefinesKernel};

use crate::leads::lead_code;
use crate::live::Live;
use crate::threads::thread_code;
use kernel_code::Kernel;
use std::alloc::{AllocError, Global};

/// A kernel that does the same wherever this one isn't stuck, in which what stands behind a choice is taken into its bodies where that
/// settles it there, and what is set right before one where one body alone reads it. What is taken in stands in both bodies, as it was.
/// Refused only for want of memory. It takes time linear in the kernel's size times the depth to which its statements are nested and the
/// number of statements that one choice takes in, and calls itself as deep as statements and expressions are nested.
pub fn thread_choices(alloc: Global, kernel: Kernel) -> Result<Kernel, AllocError>
    ensures { IfOk result (λ k. RefinesKernel AnyState k kernel) }
{
    let Kernel {
        semiring,
        workspaces,
        lists,
        body,
    } = kernel;
    let mut live = Live::none(alloc);
    let led = lead_code(alloc, body.as_slice(), &mut live)?;
    let threaded = thread_code(alloc, led.as_slice())?;
    Ok(Kernel {
        semiring,
        workspaces,
        lists,
        body: threaded,
    })
}
