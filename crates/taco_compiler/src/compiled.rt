use format_spec::Format;
use kernel_code::Kernel;
use std::alloc::AllocError;
use trees::Items;

/// A kernel, the order of its loops: the variables by their numbers, that of the outermost loop first; and the formats of the tensors that
/// it is for, the result's first.
#[derive(Debug, Drop)]
pub struct Compiled {
    pub kernel: Kernel,
    pub order: Items<usize>,
    pub formats: Items<Format>,
}

/// Why there is no kernel.
#[derive(Debug, Drop)]
pub enum CompileFault {
    /// No loop order respects the storage order of every tensor: these variables wait for one another in a cycle.
    Cycle(Items<usize>),
    /// Want of memory.
    Memory(AllocError),
}
