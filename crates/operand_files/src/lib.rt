//! The files of a statement's operands, read one after another from a folder, and the file of a kernel. `specs/Decoded.antt` says
//! what the bytes of an operand's file stand for, `specs/Reads.antt` what a folder shows afterwards, and why a file is refused;
//! `specs/KernelFiles.antt` says both of a kernel's file.
#![tactic(auto)]

mod bounds;
mod decoding;
mod fault;
mod feeding;
mod kernel_file;
mod matrix_file;
mod operands;

pub use fault::OperandFault;
pub use kernel_file::{KernelFileFault, read_kernel_file};
pub use operands::{Operands, read_operands};
