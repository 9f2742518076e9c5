// What was fed to a reader. It takes no memory: only clauses read it.
ghost use Rattle.std.specs.Prelude.{◌≡◌, ℕ, List, [], ◌++◌};
ghost use Rattle.std.specs.Borrow.{ftrue};

use std::marker::{Model, PhantomData};

/// The bytes that a reader was fed, for contracts alone: it takes no memory and no time.
#[derive(Drop)]
pub struct Fed {
    marker: PhantomData<u8>,
    pub ghost bytes: { List ℕ },
}

impl Model for Fed {
    ghost also_owns = { λ _. ftrue };
}

impl Fed {
    /// Nothing was fed yet.
    pub fn new() -> Fed
        ensures { result.bytes ≡ [] }
    {
        Fed {
            marker: PhantomData,
        }
    }

    /// One more piece was fed.
    pub fn extend(&mut self, _piece: &[u8])
        ensures { self.new.bytes ≡ self.old.bytes ++ _piece.now }
    {}
}
