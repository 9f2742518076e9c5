//! `Prepared`: a kernel that is ready to run.
use kernel_code::Kernel;
use kernel_interpreter::Machine;
use resolved_code::Resolved;
use std::alloc::Global;
use storage_builder::Builder;
use trees::Items;

/// A kernel that is ready to run on operands, with the arrays of its result begun.
#[derive(Drop)]
pub struct Prepared<'a> {
    pub(crate) alloc: Global,
    pub(crate) kernel: &'a Kernel,
    pub(crate) code: Items<Resolved>,
    pub(crate) order: usize,
    pub(crate) machine: Machine<'a>,
    pub(crate) builder: Builder,
}
