//! `Segment`: a list in one block. A clause sees it as its `items` and its `spare`.
ghost use Rattle.std.specs.Prelude.{◌≡◌, ◌+◌, ◌-◌, ◌*◌, ◌^◌, ◌<◌, ◌≤◌, max};
ghost use Rattle.std.specs.Prelude.{[], ◌∷◌, ◌++◌, length, take, replicate, slice_index_or};
ghost use Rattle.std.specs.Prelude.{slice_set, IfOk, OnOk, OnErr, IsOk};
ghost use Rattle.std.specs.Borrow.{sem};

use crate::raw::{Base, Deed, Places, allocate, deallocate, no_block};
use std::alloc::{AllocError, Global};
use std::marker::Model;
use std_alloc::room::may_hold;

/// How many places the next block has, of a list of `len` elements in `room` places that lacks room for `n` more: twice
/// as many, if that is enough. It is refused where a word can't count the elements.
pub(crate) fn grown(room: usize, len: usize, n: usize) -> Result<usize, AllocError>
    requires { room < 2 ^ 63 }
    ensures ok { IfOk result (λ m. m ≡ max (len + n) (2 * room)) }
    ensures err { OnErr result (2 ^ 64 ≤ len + n) }
{
    let wanted = len.checked_add(n).ok_or(AllocError)?;
    Ok(wanted.max(room * 2))
}

/// Puts values in the places from `start` on, one after another. What the others after them held is forgotten.
fn write_all<T: Copy>(places: &mut Places<T>, base: Base<T>, start: usize, xs: &[T])
    requires base { base.ptr ≡ places.old.at }
    requires start { start ≤ length places.old.values }
    requires within { length places.old.values ≤ places.old.room }
    requires room { start + length xs.now ≤ places.old.room }
    requires small { places.old.room < 2 ^ 63 }
    ensures at { places.new.at ≡ places.old.at }
    ensures room { places.new.room ≡ places.old.room }
    ensures within { length places.new.values ≤ places.new.room }
    ensures held { start + length xs.now ≤ length places.new.values }
    ensures values { take (start + length xs.now) places.new.values ≡ take start places.old.values ++ xs.now }
{
    let mut end = start;
    for x in xs {
        places.write(base, end, *x);
        end += 1;
    }
}

/// A growable list of plain values in one block of raw memory.
///
/// The first `len` of the `room` places hold the elements, so `room - len` more can be pushed with no allocation.
pub struct Segment<T> {
    base: Base<T>,
    len: usize,
    room: usize,
    places: Places<T>,
    deed: Deed<T, Global>,
    alloc: Global,
}

impl<T> Model for Segment<T> {
    ghost use Rattle.std.specs.Prelude.{◌≡◌, ◌-◌, ◌^◌, ◌<◌, ◌≤◌, length, take};
    ghost use Rattle.seg_buffer.specs.Buffer.{Buffer, buffer, buffer_code};

    ghost Value = { Buffer T };

    ghost coded = { buffer_code T.code };

    ghost view = { λ s. buffer (take s.len s.places.values) (s.room - s.len) };

    // The rights are those to the block of `room` places at `base`, and as many values lie there as there are elements,
    // or more: `truncate` leaves the others where they are.
    ghost invariant = { λ s. (s.base.ptr ≡ s.places.at) × (s.deed.at ≡ s.base.ptr) × (s.deed.room ≡ s.room) × (s.deed.alloc ≡ s.alloc)
        × (s.places.room ≡ s.room) × (s.len ≤ length s.places.values) × (length s.places.values ≤ s.room) × (s.room < 2 ^ 63) };
}

impl<T: Copy> Segment<T> {
    /// An empty segment with no spare room. It takes no memory.
    pub fn new(alloc: Global) -> Self
        ensures items { result.items ≡ [] }
        ensures spare { result.spare ≡ 0 }
    {
        let (base, places, deed) = no_block(&alloc);
        Segment {
            base,
            len: 0,
            room: 0,
            places,
            deed,
            alloc,
        }
    }

    /// An empty segment with room for `n` elements. It is refused as in `reserve`.
    pub fn with_room(alloc: Global, n: usize) -> Result<Self, AllocError>
        ensures items { IfOk result (λ s. s.items ≡ []) }
        ensures spare { IfOk result (λ s. s.spare ≡ n) }
        ensures succeeds { n ≡ 0 → IsOk result }
    {
        if n == 0 {
            return Ok(Segment::new(alloc));
        }
        if !may_hold::<T>(n) {
            return Err(AllocError);
        }
        let (base, places, deed) = allocate(&alloc, n)?;
        Ok(Segment {
            base,
            len: 0,
            room: n,
            places,
            deed,
            alloc,
        })
    }

    /// `n` elements, each of them `x`, with no spare room. It is refused as in `reserve`.
    pub fn filled(alloc: Global, n: usize, x: T) -> Result<Self, AllocError>
        ensures items { IfOk result (λ s. s.items ≡ replicate n x) }
        ensures spare { IfOk result (λ s. s.spare ≡ 0) }
        ensures succeeds { n ≡ 0 → IsOk result }
    {
        let mut segment = Segment::with_room(alloc, n)?;
        segment.push_copies(n, x);
        Ok(segment)
    }

    /// The number of elements.
    pub fn len(&self) -> usize
        ensures len { result ≡ length self.now.items }
        ensures within { length self.now.items + self.now.spare < 2 ^ 63 }
    {
        self.len
    }

    /// How many elements can be pushed before memory is wanted again.
    pub fn spare(&self) -> usize
        ensures spare { result ≡ self.now.spare }
        ensures within { length self.now.items + self.now.spare < 2 ^ 63 }
    {
        self.room - self.len
    }

    /// The elements.
    pub fn as_slice(&self) -> &[T]
        ensures { result.now ≡ self.now.items }
    {
        self.places.slice(self.base, self.len)
    }

    /// The element at `i`, counted from 0.
    pub fn get(&self, i: usize) -> T
        requires { i < length self.now.items }
        ensures { result ≡ slice_index_or self.now.items i result }
    {
        self.as_slice()[i]
    }

    /// Appends an element. `reserve` makes the room for it.
    pub fn push_reserved(&mut self, x: T)
        requires { 0 < self.old.spare }
        ensures items { self.new.items ≡ self.old.items ++ x ∷ [] }
        ensures spare { self.new.spare + 1 ≡ self.old.spare }
    {
        self.places.write(self.base, self.len, x);
        self.len += 1;
    }

    /// Makes room for at least `n` more elements. A segment that lacks it moves to a block of twice as many places, or
    /// of as many as are wanted if that is more: so pushes after reserves of 1 take time linear in their number. It is
    /// refused where the allocator has no memory, and where no block can be so large, as with 2^63 bytes.
    pub fn reserve(&mut self, n: usize) -> Result<(), AllocError>
        ensures items { self.new.items ≡ self.old.items }
        ensures ok { OnOk result (n ≤ self.new.spare) }
        ensures doubles { OnOk result (self.old.spare < n
            → length self.new.items + self.new.spare ≡ max (length self.old.items + n) (2 * (length self.old.items + self.old.spare))) }
        ensures err { OnErr result (self.new ≡ self.old) }
        ensures enough { n ≤ self.old.spare → IsOk result × (self.new ≡ self.old) }
    {
        if n <= self.spare() {
            return Ok(());
        }
        let room = grown(self.room, self.len, n)?;
        *self = self.copied(room)?;
        Ok(())
    }

    /// The same elements in a block of their own, of `room` places.
    pub(crate) fn copied(&self, room: usize) -> Result<Self, AllocError>
        requires { length self.now.items ≤ room }
        ensures items { IfOk result (λ s. s.items ≡ self.now.items) }
        ensures spare { IfOk result (λ s. s.spare ≡ room - length self.now.items) }
    {
        let mut copy = Segment::with_room(self.alloc, room)?;
        copy.append_reserved(self.as_slice());
        Ok(copy)
    }

    /// Appends elements. `reserve` makes the room for them.
    pub fn append_reserved(&mut self, xs: &[T])
        requires { length xs.now ≤ self.old.spare }
        ensures items { self.new.items ≡ self.old.items ++ xs.now }
        ensures spare { self.new.spare + length xs.now ≡ self.old.spare }
    {
        write_all(&mut self.places, self.base, self.len, xs);
        self.len += xs.len();
    }

    fn push_copies(&mut self, n: usize, x: T)
        requires { n ≤ self.old.spare }
        ensures items { self.new.items ≡ self.old.items ++ replicate n x }
        ensures spare { self.new.spare + n ≡ self.old.spare }
    {
        for _pushed in 0..n {
            self.push_reserved(x);
        }
    }

    /// Keeps the first `n` elements. The places of the others become spare room.
    pub fn truncate(&mut self, n: usize)
        ensures items { self.new.items ≡ take n self.old.items }
        ensures spare { self.new.spare ≡ self.old.spare + (length self.old.items - n) }
    {
        if n < self.len {
            self.len = n;
        }
    }
}

impl<T: Copy> Segment<T> {
    ghost use Rattle.seg_buffer.specs.SegmentLend.{lends_elements};

    /// The elements, to be changed. What is written there is what the segment holds afterwards.
    pub fn as_mut_slice(&mut self) -> &mut [T]
        ensures* writes_back { sem 𝓛 (lends_elements T.row self.entry result) }
        ensures value { result.now ≡ self.old.items }
    {
        self.places.slice_mut(self.base, self.len)
    }

    /// Puts `x` in the place of the element at `i`, counted from 0.
    pub fn set(&mut self, i: usize, x: T)
        requires { i < length self.old.items }
        ensures items { self.new.items ≡ slice_set self.old.items i x }
        ensures spare { self.new.spare ≡ self.old.spare }
    {
        self.as_mut_slice()[i] = x;
    }
}

impl<T> Drop for Segment<T> {
    fn drop(self) {
        let Segment {
            base,
            len: _,
            room,
            places,
            deed,
            alloc,
        } = self;
        deallocate(&alloc, base, room, places, deed);
    }
}
