use std::alloc::AllocError;
use text_lines::LineKind;

/// Why a `.tns` file isn't read.
#[derive(Clone, Copy, Debug, PartialEq, Eq)]
pub enum FileFault {
    /// Its first bad line: the number, counted from 1, which stands still at 2^64 - 1, and what is wrong with it.
    Line { line: u64, kind: LineKind },
    /// There is no memory for its entries.
    Memory(AllocError),
}
