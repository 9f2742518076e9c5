use std::alloc::AllocError;
use text_lines::LineKind;

/// Why a file isn't read.
#[derive(Clone, Copy, Debug, PartialEq, Eq)]
pub enum FileFault {
    /// A line is bad. It is told by its number in the file, counted from 1; the count stands still at 2^64 - 1.
    Line { line: u64, kind: LineKind },
    /// Memory is wanted.
    Memory(AllocError),
}
