// The faults of all layers, gathered.
ghost use Rattle.std.specs.Prelude.{◌≡◌};
ghost use Rattle.refusals.specs.Lines.{status_of, notation_status, named_status, kernel_status};
ghost use Rattle.refusals.specs.declared.fault.Fault.TheVariants.{Memory};

use bindings::{BindingFault, WordFault};
use expr_terms::{NameFault, RangeFault};
use index_notation::Statement;
use notation_grammar::NotationFault;
use operand_packing::LargeLevel;
use std::alloc::AllocError;
use text_lines::LineKind;
use trees::Items;

/// A fault that is told by names of the statement.
#[derive(Debug, Drop)]
pub enum NamedFault {
    /// A name stands where it may not.
    Name(NameFault),
    /// A word, a file or a format is missing or wrong.
    Binding(BindingFault),
    /// No loop order respects the storage order of every tensor: these variables wait for one another in a cycle.
    Cycle(Items<usize>),
    /// A variable has no range, or two.
    Range(RangeFault),
    /// This level would have more positions than may be.
    SizeLimit(LargeLevel),
}

/// Why no kernel is read from a file, or the run of one that was read has no result.
#[derive(Debug, Drop)]
pub enum KernelFault<'a> {
    /// This line of this file, counted from 1, opens a bracket where too many are open.
    KernelDepth { path: &'a str, line: u64 },
    /// This line of this file, counted from 1, is the first with which no kernel's text begins.
    BadKernel { path: &'a str, line: u64 },
    /// The run can't go on at this statement, counted from 1 in the order of first lines.
    Trap { statement: u64 },
    /// The run would take more turns than these, which it was given.
    Budget { turns: u64 },
    /// The run ends, and what it leaves is no storage of the result's format.
    BadStore,
}

/// Why a command ends without its result.
#[derive(Debug, Drop)]
pub enum Fault<'a> {
    /// The words are no command line.
    Usage,
    /// The statement's text isn't one.
    Notation(NotationFault),
    /// A fault that is told by names of this statement.
    Named {
        statement: Statement,
        fault: NamedFault,
    },
    /// A minus stands on the right, and the semiring of this name has none.
    NoMinus(&'a str),
    /// The result's workspace would have so many pairs of coordinates and a value, which pass the limit.
    WorkspaceLimit(u128),
    /// Reading this file failed, or it isn't there.
    ReadFault(&'a str),
    /// This file has more bytes than may be.
    FileBytes(&'a str),
    /// This line of this file, counted from 1, is the first bad one.
    BadFile {
        path: &'a str,
        line: u64,
        kind: LineKind,
    },
    /// A kernel that is given in a file isn't read, or its run has no result.
    Kernel(KernelFault<'a>),
    /// Writing the result failed: to this path, or to the output.
    WriteFault(Option<&'a str>),
    /// Memory was wanted.
    Memory,
}

impl<'a> Fault<'a> {
    /// The status that a command ends with.
    pub fn status(&self) -> u8
        ensures { result ≡ status_of self.now }
    {
        match self {
            Fault::Usage => 2,
            Fault::Notation(fault) => status_of_notation(fault),
            Fault::Named { fault, .. } => status_of_named(fault),
            Fault::NoMinus(_) | Fault::BadFile { .. } => 1,
            Fault::Kernel(fault) => status_of_kernel(fault),
            Fault::ReadFault(_) => 3,
            Fault::WriteFault(_) => 4,
            Fault::FileBytes(_) | Fault::WorkspaceLimit(_) => 6,
            Fault::Memory => 5,
        }
    }
}

/// Want of memory in any part ends the command.
impl<'a> From<AllocError> for Fault<'a> {
    ghost from_gives = { λ _ fault. fault ≡ Memory };

    fn from(_error: AllocError) -> Fault<'a> {
        Fault::Memory
    }
}

/// The status of a text that is no statement.
fn status_of_notation(fault: &NotationFault) -> u8
    ensures { result ≡ notation_status fault.now }
{
    match fault {
        NotationFault::BadNotation { .. } => 1,
        NotationFault::TextLength
        | NotationFault::TooDeep { .. }
        | NotationFault::TooMany { .. }
        | NotationFault::LiteralRange { .. } => 6,
        NotationFault::Memory(_) => 5,
    }
}

/// The status of a fault that is told by names.
fn status_of_named(fault: &NamedFault) -> u8
    ensures { result ≡ named_status fault.now }
{
    match fault {
        NamedFault::Name(_) | NamedFault::Cycle(_) => 1,
        NamedFault::Binding(
            BindingFault::Word {
                fault: WordFault::RangeLimit,
                ..
            },
        ) => 6,
        NamedFault::Binding(BindingFault::Memory(_)) | NamedFault::Range(RangeFault::Memory(_)) =>
            5,
        NamedFault::Binding(_) | NamedFault::Range(_) => 1,
        NamedFault::SizeLimit(_) => 6,
    }
}

/// The status of a kernel that isn't read, or whose run has no result.
fn status_of_kernel(fault: &KernelFault<'_>) -> u8
    ensures { result ≡ kernel_status fault.now }
{
    match fault {
        KernelFault::BadKernel { .. } | KernelFault::Trap { .. } | KernelFault::BadStore => 1,
        KernelFault::KernelDepth { .. } | KernelFault::Budget { .. } => 6,
    }
}
