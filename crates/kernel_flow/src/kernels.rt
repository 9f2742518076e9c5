// Kernels.
ghost use Rattle.std.specs.Prelude.{◌≡◌, IfOk};
ghost use Rattle.simplifier.specs.Refines.{RefinesKernel};
ghost use Rattle.kernel_flow.specs.Steady.{HasWords};

use crate::flow::pass_code;
use crate::policy::{Policy, reads_of};
use kernel_code::Kernel;
use std::alloc::{AllocError, Global};
use trees::Items;

/// A kernel that does the same wherever this one isn't stuck, in which is written what is known: numbers and copies of variables,
/// and no choice whose test they settle. Refused only for want of memory.
pub fn propagate(alloc: Global, kernel: Kernel) -> Result<Kernel, AllocError>
    ensures { IfOk result (λ k. RefinesKernel HasWords k kernel) }
{
    let Kernel {
        semiring,
        workspaces,
        lists,
        body,
    } = kernel;
    let reads = reads_of(alloc, body.as_slice())?;
    let policy = Policy {
        reads: &reads,
        in_choice: false,
    };
    let passed = pass_code(alloc, body.as_slice(), Items::new(alloc), policy)?;
    Ok(Kernel {
        semiring,
        workspaces,
        lists,
        body: passed.code,
    })
}
