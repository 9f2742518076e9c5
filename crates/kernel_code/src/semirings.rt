//! Over which semiring a kernel's values are.
ghost use Rattle.std.specs.Prelude.{◌≡◌, IfOk};
ghost use Rattle.kernel_code.specs.Semirings.{semiring_of};

use crate::syntax::KernelSemiring;
use numbers::Semiring;
use std::alloc::{AllocError, Global};
use trees::Items;

impl KernelSemiring {
    /// What a kernel tells of a semiring: its name, but for the ring. Refused only for want of memory.
    pub fn of<S: Semiring>(alloc: Global) -> Result<KernelSemiring, AllocError>
        ensures { IfOk result (λ semiring. semiring ≡ semiring_of S.is_ring S.name) }
    {
        if S::is_ring() {
            return Ok(KernelSemiring::Ring);
        }
        let name = Items::from_slice(alloc, S::name().as_bytes())?;
        Ok(KernelSemiring::Named(name))
    }
}
