// Why code isn't numbered.
use std::alloc::AllocError;

/// Why code isn't numbered.
#[derive(Drop)]
pub(crate) enum Refusal {
    /// A variable has no number.
    NoNumber,
    /// Memory was wanted.
    Memory(AllocError),
}

impl From<AllocError> for Refusal {
    fn from(error: AllocError) -> Refusal {
        Refusal::Memory(error)
    }
}
