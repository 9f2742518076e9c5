//! How many bytes were handed on. It takes no memory: only clauses read it.
ghost use Rattle.std.specs.Prelude.{◌≡◌, ℕ, ◌+◌, length};
ghost use Rattle.std.specs.Borrow.{ftrue};

use std::marker::{Model, PhantomData};

/// The number of bytes that were handed on since it was made. As a ghost it has no end.
#[derive(Drop)]
pub(crate) struct Handed {
    marker: PhantomData<u8>,
    pub ghost count: { ℕ },
}

impl Model for Handed {
    ghost also_owns = { λ _. ftrue };
}

impl Handed {
    /// Nothing was handed on yet.
    pub(crate) fn new() -> Handed
        ensures { result.count ≡ 0 }
    {
        Handed {
            marker: PhantomData,
        }
    }

    /// These bytes were handed on.
    pub(crate) fn extend(&mut self, _bytes: &[u8])
        ensures { self.new.count ≡ self.old.count + length _bytes.now }
    {}
}
