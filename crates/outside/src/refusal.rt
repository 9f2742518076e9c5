// Why a call of the outside is refused.
ghost use Rattle.std.specs.Prelude.{◌≡◌};

use std::alloc::AllocError;

/// Why a folder or a sink refuses a call.
#[derive(Clone, Copy, Debug, PartialEq, Eq)]
pub enum Refusal {
    /// Reading or writing went wrong; the count of such faults rose in this call.
    Failed,
    /// The file to be read isn't there.
    Absent,
    /// An object in memory couldn't grow; its count of wants rose in this call.
    Memory(AllocError),
}

/// Why `read_through` stops before the file's end.
#[derive(Clone, Copy, Debug, PartialEq, Eq)]
pub enum ReadStop {
    /// A read failed, or the file isn't there.
    ReadFault,
    /// More bytes than the budget were taken.
    FileBytes,
    /// The folder or the eater wants memory.
    Memory(AllocError),
}

/// A file that isn't there can't be read.
impl From<Refusal> for ReadStop {
    ghost use Rattle.outside.specs.Refusal.{stop_of};

    ghost from_gives = { λ refusal stop. stop ≡ stop_of refusal };

    fn from(refusal: Refusal) -> ReadStop {
        match refusal {
            Refusal::Failed | Refusal::Absent => ReadStop::ReadFault,
            Refusal::Memory(error) => ReadStop::Memory(error),
        }
    }
}
