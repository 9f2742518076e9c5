// Which calls of an object in memory fail, and into which pieces it cuts.
ghost use Rattle.std.specs.Prelude.{◌≡◌, ◌<◌, ◌≤◌, ◌↔◌, ◌+◌, ◌-◌, ◌^◌, ◌∷◌, ◌++◌, []};
ghost use Rattle.std.specs.Prelude.{IsTrue, Contains, OnOk, min, max, slice_index, vec_len};

use std::alloc::{AllocError, Global};

#[derive(Drop)]
pub struct Script {
    // How many calls were made.
    calls: u64,
    // The numbers of those that are to fail, the first call being number 1.
    failing: Vec<u64>,
    // The greatest lengths of pieces, used in turn, and whose turn it is.
    lengths: Vec<usize>,
    turn: usize,
}

impl Script {
    pub(crate) fn new(alloc: Global) -> Self {
        Script {
            calls: 0,
            failing: Vec::new(alloc),
            lengths: Vec::new(alloc),
            turn: 0,
        }
    }

    // The call of this number is to fail.
    pub(crate) fn fail_at(&mut self, call: u64) -> Result<(), AllocError>
        ensures fails { OnOk result (self.new.failing.items ≡ self.old.failing.items ++ call ∷ []) }
        ensures calls { self.new.calls ≡ self.old.calls }
    {
        self.failing.push(call)?;
        Ok(())
    }

    // Pieces are cut to these lengths in turn, from the first again after the last. A 0 counts as 1.
    pub(crate) fn cut_into(&mut self, lengths: &[usize]) -> Result<(), AllocError>
        ensures cuts { OnOk result (self.new.lengths.items ≡ self.old.lengths.items ++ lengths.now) }
        ensures turn { self.new.turn ≡ self.old.turn }
    {
        self.lengths.extend_from_slice(lengths)
    }

    // Counts a call, and says whether it is to fail.
    pub(crate) fn next_call(&mut self) -> bool
        ensures fails { IsTrue result ↔ Contains self.old.failing.items self.new.calls }
        ensures counts { self.old.calls < 2 ^ 64 - 1 → self.new.calls ≡ self.old.calls + 1 }
        ensures failing { self.new.failing ≡ self.old.failing }
    {
        self.calls = self.calls.saturating_add(1);
        self.failing.contains(&self.calls)
    }

    // How much of so many bytes the next piece has: at least one, if there is one.
    pub(crate) fn piece_length(&mut self, length: usize) -> usize
        ensures within { result ≤ length }
        ensures progress { 0 < length → 0 < result }
        ensures whole { self.old.lengths.items ≡ [] → result ≡ length }
        ensures cut { self.old.turn < vec_len self.old.lengths
            → result ≡ min length (max (slice_index self.old.lengths.items self.old.turn) 1) }
    {
        let Some(greatest) = self.lengths.get(self.turn).copied() else {
            return length;
        };
        self.turn = (self.turn + 1) % self.lengths.len();
        length.min(greatest.max(1))
    }
}
