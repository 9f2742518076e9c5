//! A sink that remembers how much it handed on.
ghost use Rattle.std.specs.Prelude.{◌≡◌};
ghost use Rattle.result_files.specs.Tally.{tallied};

use crate::handed::Handed;
use outside::{Refusal, Sink};

/// Hands all on to another sink. What contracts see of it tells, behind what it was given, what that sink held before:
/// so they know that a sink over this one leaves it.
#[derive(Drop)]
pub(crate) struct Tally<'a, S: Sink> {
    lower: &'a mut S,
    handed: Handed,
}

impl<'a, S: Sink> Tally<'a, S> {
    ghost use Rattle.result_files.specs.Tally.{lower_of, borrow_of};

    /// Nothing was handed on yet.
    pub(crate) fn new(lower: &'a mut S) -> Self
        ensures borrow { borrow_of result ≡ lower.entry.ghost_name }
        ensures lower { lower_of result ≡ lower.old }
        ensures state { ⟦<Tally<'a, S> as Sink>⟧.state result ≡ tallied (S.state lower.old) lower.entry.ghost_name 0 }
    {
        Tally {
            lower,
            handed: Handed::new(),
        }
    }
}

impl<'a, S: Sink> Sink for Tally<'a, S> {
    ghost use Rattle.result_files.specs.Tally.{lower_of, borrow_of};

    ghost state = { λ s. tallied (S.state (lower_of s)) (borrow_of s) s.handed.count };

    fn write(&mut self, piece: &[u8]) -> Result<usize, Refusal> {
        match self.lower.write(piece) {
            Ok(n) => {
                self.handed.extend(piece.split_at(n).0);
                Ok(n)
            }
            Err(refusal) => Err(refusal),
        }
    }

    fn finish(&mut self) -> Result<(), Refusal> {
        self.lower.finish()
    }
}
