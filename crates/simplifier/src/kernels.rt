// Kernels.
ghost use Rattle.std.specs.Prelude.{◌≡◌, IfOk};
ghost use Rattle.kernel_code.specs.Semirings.{IsWellFormed, semiring_of};
ghost use Rattle.simplifier.specs.Folded.{SimpleCode};
ghost use Rattle.simplifier.specs.Same.{SameKernel, SameRuns};

use crate::code::simplify_code;
use kernel_code::Kernel;
use numbers::Semiring;
use std::alloc::{AllocError, Global};

/// A kernel that does the same, in which numbers are folded, an `if` on a number is the body that it takes, and a loop on 0 is
/// gone; over the ring sums and products of values are those of words, so a kernel of the semiring is well formed then. What is stuck
/// stays stuck, at whichever number the statement has in the simpler code: an operand that isn't evaluated may be dropped, one that
/// is evaluated and may be stuck isn't. Refused only for want of memory. It takes time linear in the kernel's size, and calls itself as
/// deep as the kernel's statements and expressions are nested.
pub fn simplify<S: Semiring>(alloc: Global, kernel: Kernel) -> Result<Kernel, AllocError>
    ensures code { IfOk result (λ simple. SameRuns S.arithmetic simple.body kernel.body) }
    ensures runs { IfOk result (λ simple. SameKernel S.arithmetic simple kernel) }
    ensures simple { IfOk result (λ simple. SimpleCode S.arithmetic simple.body) }
    ensures formed { kernel.semiring ≡ semiring_of S.is_ring S.name → IfOk result IsWellFormed }
{
    let Kernel {
        semiring,
        workspaces,
        lists,
        body,
    } = kernel;
    let body = simplify_code::<S>(alloc, body.as_slice())?;
    Ok(Kernel {
        semiring,
        workspaces,
        lists,
        body,
    })
}
