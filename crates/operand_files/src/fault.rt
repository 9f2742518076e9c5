ghost use Rattle.std.specs.Prelude.{◌≡◌};
ghost use Rattle.operand_files.specs.declared.fault.OperandFault.TheVariants.{Memory};

use std::alloc::{AllocError, AllocFailed};
use text_lines::LineKind;

/// Why the operands of a statement aren't read.
#[derive(Debug, Drop)]
pub enum OperandFault<'a> {
    /// Reading the file of this path failed, or it isn't there.
    ReadFault(&'a str),
    /// The file of this path has more bytes than may be.
    FileBytes(&'a str),
    /// The first bad line of the file of this path: its number, counted from 1, which stands still at 2^64 - 1, and what is
    /// wrong with it. The kinds of a `.tns` line are among those of a `.mtx` line.
    BadFile {
        path: &'a str,
        line: u64,
        kind: LineKind,
    },
    /// Memory is wanted.
    Memory,
}

/// Want of memory in any part ends the reading.
impl<'a> From<AllocError> for OperandFault<'a> {
    ghost from_gives = { λ _ fault. fault ≡ Memory };

    fn from(_error: AllocError) -> OperandFault<'a> {
        OperandFault::Memory
    }
}

/// Why a file isn't fed to its end.
#[derive(Debug, Drop)]
pub(crate) enum FileStop {
    /// Reading it failed, or it isn't there.
    ReadFault,
    /// It has more bytes than may be.
    FileBytes,
    /// Memory is wanted.
    Memory,
}
