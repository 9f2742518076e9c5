//! `Words`: a list of numbers that takes four bytes for each, or eight. A clause sees it as its `items`, its `spare`, and whether it is
//! `wide`.
ghost use Rattle.std.specs.Prelude.{◌≡◌, ◌+◌, ◌-◌, ◌*◌, ◌^◌, ◌<◌, ◌≤◌, max};
ghost use Rattle.std.specs.Prelude.{[], ◌∷◌, ◌++◌, length, take, slice_get, slice_set, Some, OnOk, OnErr, IsOk};
ghost use Rattle.seg_buffer.specs.WordBuffer.{FitsWord, lent_items, lent_wide};

use crate::segment::Segment;
use std::alloc::{AllocError, Global};
use std::marker::Model;

/// How words stand in memory.
#[derive(Drop)]
pub enum Form {
    /// Four bytes each.
    Narrow(Segment<u32>),
    /// Eight bytes each.
    Wide(Segment<u64>),
}

/// Words that are only read.
#[derive(Clone, Copy, Drop)]
pub enum Lent<'a> {
    /// Four bytes each.
    Narrow(&'a [u32]),
    /// Eight bytes each.
    Wide(&'a [u64]),
}

/// A growable list of numbers. It is wide or narrow from the start: a narrow one takes four bytes for each number, which then is below
/// 2^32, and a wide one eight.
#[derive(Drop)]
pub struct Words {
    form: Form,
}

impl Model for Words {
    ghost use Rattle.seg_buffer.specs.WordBuffer.{WordBuffer, words_in};

    ghost Value = { WordBuffer };

    ghost view = { λ w. words_in w.form };
}

impl Words {
    /// An empty list with no spare room. It takes no memory.
    pub fn new(alloc: Global, wide: bool) -> Self
        ensures items { result.items ≡ [] }
        ensures spare { result.spare ≡ 0 }
        ensures wide { result.wide ≡ wide }
    {
        let form = if wide {
            Form::Wide(Segment::new(alloc))
        } else {
            Form::Narrow(Segment::new(alloc))
        };
        Words { form }
    }

    /// Whether each number takes eight bytes.
    pub fn is_wide(&self) -> bool
        ensures { result ≡ self.now.wide }
    {
        match &self.form {
            Form::Narrow(_) => false,
            Form::Wide(_) => true,
        }
    }

    /// The number of items.
    pub fn len(&self) -> usize
        ensures len { result ≡ length self.now.items }
        ensures within { length self.now.items + self.now.spare < 2 ^ 63 }
    {
        match &self.form {
            Form::Narrow(words) => words.len(),
            Form::Wide(words) => words.len(),
        }
    }

    /// How many items can be pushed before memory is wanted again.
    pub fn spare(&self) -> usize
        ensures spare { result ≡ self.now.spare }
        ensures within { length self.now.items + self.now.spare < 2 ^ 63 }
    {
        match &self.form {
            Form::Narrow(words) => words.spare(),
            Form::Wide(words) => words.spare(),
        }
    }

    /// The item at `i`, counted from 0.
    pub fn get(&self, i: usize) -> u64
        requires { i < length self.now.items }
        ensures { slice_get self.now.items i ≡ Some result }
    {
        match &self.form {
            Form::Narrow(words) => words.get(i) as u64,
            Form::Wide(words) => words.get(i),
        }
    }

    /// The items.
    pub fn lent(&self) -> Lent<'_>
        ensures items { lent_items result ≡ self.now.items }
        ensures wide { lent_wide result ≡ self.now.wide }
    {
        match &self.form {
            Form::Narrow(words) => Lent::Narrow(words.as_slice()),
            Form::Wide(words) => Lent::Wide(words.as_slice()),
        }
    }

    /// Makes room for at least `n` more items, as `Segment::reserve` does, and is refused as that is.
    pub fn reserve(&mut self, n: usize) -> Result<(), AllocError>
        ensures items { self.new.items ≡ self.old.items }
        ensures wide { self.new.wide ≡ self.old.wide }
        ensures ok { OnOk result (n ≤ self.new.spare) }
        ensures doubles { OnOk result (self.old.spare < n
            → length self.new.items + self.new.spare ≡ max (length self.old.items + n) (2 * (length self.old.items + self.old.spare))) }
        ensures err { OnErr result (self.new ≡ self.old) }
        ensures enough { n ≤ self.old.spare → IsOk result × (self.new ≡ self.old) }
    {
        match &mut self.form {
            Form::Narrow(words) => words.reserve(n),
            Form::Wide(words) => words.reserve(n),
        }
    }

    /// Appends an item. `reserve` makes the room for it.
    pub fn push_reserved(&mut self, x: u64)
        requires room { 0 < self.old.spare }
        requires fits { FitsWord self.old.wide x }
        ensures items { self.new.items ≡ self.old.items ++ x ∷ [] }
        ensures spare { self.new.spare + 1 ≡ self.old.spare }
        ensures wide { self.new.wide ≡ self.old.wide }
    {
        match &mut self.form {
            Form::Narrow(words) => words.push_reserved(x as u32),
            Form::Wide(words) => words.push_reserved(x),
        }
    }

    /// Appends items. `reserve` makes the room for them.
    pub fn append_reserved(&mut self, xs: &[u32])
        requires { length xs.now ≤ self.old.spare }
        ensures items { self.new.items ≡ self.old.items ++ xs.now }
        ensures spare { self.new.spare + length xs.now ≡ self.old.spare }
        ensures wide { self.new.wide ≡ self.old.wide }
    {
        match &mut self.form {
            Form::Narrow(words) => words.append_reserved(xs),
            Form::Wide(words) => append_widened(words, xs),
        }
    }

    /// Puts `x` in the place of the item at `i`, counted from 0.
    pub fn set(&mut self, i: usize, x: u64)
        requires place { i < length self.old.items }
        requires fits { FitsWord self.old.wide x }
        ensures items { self.new.items ≡ slice_set self.old.items i x }
        ensures spare { self.new.spare ≡ self.old.spare }
        ensures wide { self.new.wide ≡ self.old.wide }
    {
        match &mut self.form {
            Form::Narrow(words) => words.set(i, x as u32),
            Form::Wide(words) => words.set(i, x),
        }
    }

    /// Keeps the first `n` items. The places of the others become spare room.
    pub fn truncate(&mut self, n: usize)
        ensures items { self.new.items ≡ take n self.old.items }
        ensures spare { self.new.spare ≡ self.old.spare + (length self.old.items - n) }
        ensures wide { self.new.wide ≡ self.old.wide }
    {
        match &mut self.form {
            Form::Narrow(words) => words.truncate(n),
            Form::Wide(words) => words.truncate(n),
        }
    }
}

/// Appends numbers of four bytes each, of which each takes eight then.
fn append_widened(words: &mut Segment<u64>, xs: &[u32])
    requires { length xs.now ≤ words.old.spare }
    ensures items { words.new.items ≡ words.old.items ++ xs.now }
    ensures spare { words.new.spare + length xs.now ≡ words.old.spare }
{
    for x in xs {
        words.push_reserved(*x as u64);
    }
}
