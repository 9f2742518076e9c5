// What reads gave. It takes no memory: only clauses read it.
ghost use Rattle.std.specs.Prelude.{◌≡◌, ℕ, List, []};
ghost use Rattle.std.specs.Borrow.{ftrue};
ghost use Rattle.outside.specs.Given.{opened, extended};

use std::marker::{Model, PhantomData};

/// Of each file that was opened, in order, its name and the bytes that reads gave of it.
#[derive(Drop)]
pub(crate) struct Given {
    marker: PhantomData<u8>,
    pub ghost files: { List (List ℕ × List ℕ) },
}

impl Model for Given {
    ghost also_owns = { λ _. ftrue };
}

impl Given {
    /// No file was opened yet.
    pub(crate) fn new() -> Given
        ensures { result.files ≡ [] }
    {
        Given {
            marker: PhantomData,
        }
    }

    /// A file was opened.
    pub(crate) fn start(&mut self, _name: &[u8])
        ensures { self.new.files ≡ opened self.old.files _name.now }
    {}

    /// A read gave these bytes of the last file.
    pub(crate) fn extend(&mut self, _bytes: &[u8])
        ensures { self.new.files ≡ extended self.old.files _bytes.now }
    {}
}
