//! `Twin`: two lists of equal length, which grow together.
ghost use Rattle.std.specs.Prelude.{◌≡◌, ◌+◌, ◌-◌, ◌*◌, ◌^◌, ◌<◌, ◌≤◌};
ghost use Rattle.std.specs.Prelude.{max, [], ◌∷◌, ◌++◌, length, take, OnOk, OnErr, IsOk};

use crate::segment::{Segment, grown};
use std::alloc::{AllocError, Global};
use std::marker::Model;

/// Two growable lists of plain values of equal length, each in one block of raw memory. Both have the same spare room.
#[derive(Drop)]
pub struct Twin<A, B> {
    first: Segment<A>,
    second: Segment<B>,
}

impl<A, B> Model for Twin<A, B> {
    ghost use Rattle.std.specs.Prelude.{◌≡◌, length};
    ghost use Rattle.seg_buffer.specs.Buffer.{Buffers, buffers, buffers_code};

    ghost Value = { Buffers A B };

    ghost coded = { buffers_code A.code B.code };

    ghost view = { λ t. buffers t.first.items t.second.items t.first.spare };

    ghost invariant = { λ t. (length t.first.items ≡ length t.second.items) × (t.first.spare ≡ t.second.spare) };
}

impl<A: Copy, B: Copy> Twin<A, B> {
    /// Two empty lists with no spare room. They take no memory.
    pub fn new(alloc: Global) -> Self
        ensures first { result.first ≡ [] }
        ensures second { result.second ≡ [] }
        ensures spare { result.spare ≡ 0 }
    {
        Twin {
            first: Segment::new(alloc),
            second: Segment::new(alloc),
        }
    }

    /// The number of elements of each list.
    pub fn len(&self) -> usize
        ensures first { result ≡ length self.now.first }
        ensures second { result ≡ length self.now.second }
        ensures within { length self.now.first + self.now.spare < 2 ^ 63 }
    {
        self.first.len()
    }

    /// How many pairs can be pushed before memory is wanted again.
    pub fn spare(&self) -> usize
        ensures spare { result ≡ self.now.spare }
        ensures within { length self.now.first + self.now.spare < 2 ^ 63 }
    {
        self.first.spare()
    }

    /// The first list.
    pub fn first(&self) -> &[A]
        ensures first { result.now ≡ self.now.first }
        ensures equal { length self.now.first ≡ length self.now.second }
    {
        self.first.as_slice()
    }

    /// The second list.
    pub fn second(&self) -> &[B]
        ensures second { result.now ≡ self.now.second }
        ensures equal { length self.now.first ≡ length self.now.second }
    {
        self.second.as_slice()
    }

    /// Makes room for at least `n` more pairs. A twin that lacks it takes two blocks of twice as many places, or of as
    /// many as are wanted if that is more, before it changes anything. It is refused where the allocator has no memory
    /// for either, and where no block can be so large, as with 2^63 bytes.
    pub fn reserve(&mut self, n: usize) -> Result<(), AllocError>
        ensures first { self.new.first ≡ self.old.first }
        ensures second { self.new.second ≡ self.old.second }
        ensures ok { OnOk result (n ≤ self.new.spare) }
        ensures doubles { OnOk result (self.old.spare < n
            → length self.new.first + self.new.spare ≡ max (length self.old.first + n) (2 * (length self.old.first + self.old.spare))) }
        ensures err { OnErr result (self.new ≡ self.old) }
        ensures enough { n ≤ self.old.spare → IsOk result × (self.new ≡ self.old) }
    {
        let (len, spare) = (self.first.len(), self.first.spare());
        if n <= spare {
            return Ok(());
        }
        let room = grown(len + spare, len, n)?;
        let first = self.first.copied(room)?;
        let second = self.second.copied(room)?;
        self.first = first;
        self.second = second;
        Ok(())
    }

    /// Appends `a` to the first list and `b` to the second. `reserve` makes the room for them.
    pub fn push_pair_reserved(&mut self, a: A, b: B)
        requires { 0 < self.old.spare }
        ensures first { self.new.first ≡ self.old.first ++ a ∷ [] }
        ensures second { self.new.second ≡ self.old.second ++ b ∷ [] }
        ensures spare { self.new.spare + 1 ≡ self.old.spare }
    {
        self.first.push_reserved(a);
        self.second.push_reserved(b);
    }

    /// Keeps the first `n` elements of each list. The places of the others become spare room.
    pub fn truncate(&mut self, n: usize)
        ensures first { self.new.first ≡ take n self.old.first }
        ensures second { self.new.second ≡ take n self.old.second }
        ensures spare { self.new.spare ≡ self.old.spare + (length self.old.first - n) }
    {
        self.first.truncate(n);
        self.second.truncate(n);
    }
}
