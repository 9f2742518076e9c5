use std::alloc::AllocError;

/// Why a text is read as no kernel. Lines are counted from 1, those of comments too; the count stands still at 2^64 - 1. What stands
/// behind the last line feed is a line, and none of a kernel.
#[derive(Clone, Copy, Debug, PartialEq, Eq, Drop)]
pub enum KernelFault {
    /// A bracket opens in this line while 4,096 are open.
    KernelDepth { line: u64 },
    /// No kernel's text begins with the lines up to this one, which is one above the last where the text ends early.
    BadKernel { line: u64 },
    /// Memory is wanted.
    Memory(AllocError),
}

impl From<AllocError> for KernelFault {
    ghost use Rattle.std.specs.Prelude.{◌≡◌};
    ghost use Rattle.kernel_read.specs.declared.fault.KernelFault.TheVariants as faults;

    ghost from_gives = { λ error fault. fault ≡ faults.Memory error };

    fn from(error: AllocError) -> KernelFault {
        KernelFault::Memory(error)
    }
}
