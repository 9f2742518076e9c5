//! From a statement and the storage formats of its tensors to a kernel: the order of its loops, its concrete notation, the loops over
//! levels, and their code, which is simplified. `specs/Compiled.antt` says what is promised of the kernel, by what it leaves and how
//! often its loops turn; of its loops and code it names nothing, but that numbers settle nothing in it.
#![tactic(auto)]

mod appended;
mod compiled;
mod compiling;
mod dense;
mod grouped;
mod lowered;
mod sparse;
mod starts;
mod touched;

pub use compiled::{CompileFault, Compiled};
pub use compiling::compile;
