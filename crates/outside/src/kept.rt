// The bytes that a batch keeps back.
ghost use Rattle.std.specs.Prelude.{◌≡◌, ◌<◌, ◌≤◌, ◌↔◌, ◌++◌, [], IsTrue, take, drop, length};

use std::marker::Model;

// How many bytes there is room for.
const ROOM: usize = 4_096;

// Contracts see its bytes.
#[derive(Drop)]
pub struct Kept {
    buffer: [u8; ROOM],
    count: usize,
}

impl Model for Kept {
    ghost use Rattle.std.specs.Prelude.{List, ℕ, ◌≤◌, take};

    ghost Value = { List ℕ };

    ghost view = { λ k. take k.count k.buffer };

    ghost invariant = { λ k. k.count ≤ 4096 };
}

impl Kept {
    pub(crate) fn new() -> Self
        ensures { result ≡ [] }
    {
        Kept {
            buffer: [0; ROOM],
            count: 0,
        }
    }

    pub(crate) fn bytes(&self) -> &[u8]
        ensures bytes { result.now ≡ self.now }
        ensures short { length self.now ≤ 4096 }
    {
        &self.buffer[..self.count]
    }

    pub(crate) fn is_full(&self) -> bool
        ensures full { IsTrue result ↔ (length self.now ≡ 4096) }
        ensures short { length self.now ≤ 4096 }
    {
        self.count == ROOM
    }

    // Lets go of the first n bytes.
    pub(crate) fn drop_front(&mut self, n: usize)
        requires { n ≤ length self.old }
        ensures { self.new ≡ drop n self.old }
    {
        self.buffer[..self.count].rotate_left(n);
        self.count -= n;
    }

    // Lets go of all bytes.
    pub(crate) fn clear(&mut self)
        ensures { self.new ≡ [] }
    {
        self.count = 0;
    }

    // Keeps as many bytes of the piece as there is room for, and answers their number.
    pub(crate) fn keep(&mut self, piece: &[u8]) -> usize
        ensures within { result ≤ length piece.now }
        ensures progress { length self.old < 4096 → 0 < length piece.now → 0 < result }
        ensures keeps { self.new ≡ self.old ++ take result piece.now }
    {
        let n = piece.len().min(ROOM - self.count);
        let end = self.count + n;
        self.buffer[self.count..end].copy_from_slice(&piece[..n]);
        self.count = end;
        n
    }
}
