//! Why a result isn't written.
ghost use Rattle.std.specs.Prelude.{◌≡◌};

use outside::Refusal;
use std::alloc::AllocError;

/// Why the writing of a result stops.
#[derive(Clone, Copy, Debug, PartialEq, Eq)]
pub enum WriteRefusal {
    /// Writing went wrong: the count of such faults rose in this call.
    Fault,
    /// The folder or the sink wanted memory: its count of wants rose in this call.
    Memory(AllocError),
}

/// Nothing is told to be absent where files are written.
impl From<Refusal> for WriteRefusal {
    ghost use Rattle.result_files.specs.Refused.{refused_as};

    ghost from_gives = { λ refusal why. why ≡ refused_as refusal };

    fn from(refusal: Refusal) -> WriteRefusal {
        match refusal {
            Refusal::Failed | Refusal::Absent => WriteRefusal::Fault,
            Refusal::Memory(error) => WriteRefusal::Memory(error),
        }
    }
}
