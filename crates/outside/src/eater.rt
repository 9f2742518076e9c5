// Who is fed bytes.
ghost use Rattle.std.specs.Prelude.{◌≡◌, ℕ, List, ◌++◌, OnOk, OnErr, ⊤};

use std::alloc::AllocError;

/// Takes a text piece by piece.
pub trait Eater {
    /// The bytes that it was fed so far.
    ghost eaten: { Self → List ℕ };

    /// What a refused piece may make of the eater. Each eater says it by itself; one that doesn't leaves it open.
    ghost refused: { Self → List ℕ → Self → Type 0 } = { λ _ _ _. ⊤ };

    /// Takes one more piece.
    fn feed(&mut self, piece: &[u8]) -> Result<(), AllocError>
        ensures ok { OnOk result (eaten self.new ≡ eaten self.old ++ piece.now) }
        ensures err { OnErr result (refused self.old piece.now self.new) };
}

/// A vector keeps all that it is fed. A refused piece leaves it as it was.
impl Eater for Vec<u8> {
    ghost eaten = { λ v. v.items };

    ghost refused = { λ old piece new. new.items ≡ old.items };

    fn feed(&mut self, piece: &[u8]) -> Result<(), AllocError> {
        self.extend_from_slice(piece)
    }
}
