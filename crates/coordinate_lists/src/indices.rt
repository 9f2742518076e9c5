//! `Indices`: a list of coordinates or positions. A clause sees it as its `items`, its `spare`, and whether it is `wide`.
ghost use Rattle.std.specs.Prelude.{◌≡◌, ◌+◌, ◌-◌, ◌^◌, ◌<◌, ◌≤◌, [], ◌∷◌};
ghost use Rattle.std.specs.Prelude.{◌++◌, All, length, replicate, slice_get, slice_set, Some, IfOk, OnOk};
ghost use Rattle.std.specs.Prelude.{OnErr, IsOk};
ghost use Rattle.seg_buffer.specs.WordBuffer.{FitsWord, lent_items, lent_wide};
ghost use Rattle.coordinate_lists.specs.Widths.{needs_wide};
ghost use Rattle.level_core.specs.declared.span.Span.{Span};
ghost use Rattle.level_core.specs.declared.span.Entry.{Entry};
ghost use Rattle.level_core.specs.Entries.{StandsAt};
ghost use Rattle.level_core.specs.Logs.{entries_between};

use seg_buffer::{Lent, Words};
use std::alloc::{AllocError, Global};
use std::marker::Model;

/// The first number that takes more than four bytes: 2^32.
const FIRST_WIDE: u64 = 0x1_0000_0000;

/// Whether coordinates below a range may need more than four bytes.
pub fn needs_wide(range: u64) -> bool
    ensures { result ≡ needs_wide range }
{
    range > FIRST_WIDE
}

/// A growable list of coordinates, or of positions. Each takes eight bytes where the list is wide, and else four, and is then below
/// 2^32.
#[derive(Drop)]
pub struct Indices {
    words: Words,
}

impl Model for Indices {
    ghost use Rattle.seg_buffer.specs.WordBuffer.{WordBuffer};

    ghost Value = { WordBuffer };

    ghost view = { λ i. i.words };
}

impl Indices {
    /// An empty list with no spare room. It takes no memory.
    pub fn new(alloc: Global, wide: bool) -> Self
        ensures items { result.items ≡ [] }
        ensures spare { result.spare ≡ 0 }
        ensures wide { result.wide ≡ wide }
    {
        Indices {
            words: Words::new(alloc, wide),
        }
    }

    /// A copy of numbers, each below 2^32 where it isn't wide. Refused for want of memory alone.
    pub fn copied(alloc: Global, wide: bool, numbers: &[u64]) -> Result<Indices, AllocError>
        requires { All (FitsWord wide) numbers.now }
        ensures items { IfOk result (λ copy. copy.items ≡ numbers.now) }
        ensures wide { IfOk result (λ copy. copy.wide ≡ wide) }
    {
        let mut copy = Indices::new(alloc, wide);
        copy.reserve(numbers.len() as u64)?;
        for number in numbers {
            copy.push(*number);
        }
        Ok(copy)
    }

    /// The number of items.
    pub fn len(&self) -> u64
        ensures { result ≡ length self.now.items }
    {
        self.words.len() as u64
    }

    /// How many items can be pushed before memory is wanted again.
    pub fn spare(&self) -> u64
        ensures { result ≡ self.now.spare }
    {
        self.words.spare() as u64
    }

    /// The items.
    pub fn lent(&self) -> Lent<'_>
        ensures items { lent_items result ≡ self.now.items }
        ensures wide { lent_wide result ≡ self.now.wide }
    {
        self.words.lent()
    }

    /// The item at `i`, counted from 0.
    pub fn get(&self, i: u64) -> u64
        requires { i < length self.now.items }
        ensures { slice_get self.now.items i ≡ Some result }
    {
        self.words.get(i as usize)
    }

    /// The item at `i`, counted from 0, if there is one.
    pub fn at(&self, i: u64) -> Option<u64>
        ensures { result ≡ slice_get self.now.items i }
    {
        if i < self.len() {
            Some(self.get(i))
        } else {
            None
        }
    }

    /// The end of the group of equal coordinates that begins at the position `pos`, among the positions before `end`.
    pub fn group_end(&self, pos: u64, end: u64) -> u64
        requires first { pos < end }
        requires inside { end ≤ length self.now.items }
        ensures { (s : Span) (e : Entry) → s.hi ≡ end → StandsAt pos e (entries_between self.now.items s) → result ≡ e.child.hi }
    {
        let coord = self.get(pos);
        for next in pos + 1..end {
            if self.get(next) != coord {
                return next;
            }
        }
        end
    }

    /// Makes room for at least `n` more items, as `Words::reserve` does. Refused for want of memory, the list is as
    /// before.
    pub fn reserve(&mut self, n: u64) -> Result<(), AllocError>
        ensures items { self.new.items ≡ self.old.items }
        ensures wide { self.new.wide ≡ self.old.wide }
        ensures ok { OnOk result (n ≤ self.new.spare) }
        ensures err { OnErr result (self.new ≡ self.old) }
        ensures enough { n ≤ self.old.spare → IsOk result × (self.new ≡ self.old) }
    {
        self.words.reserve(n as usize)
    }

    /// Appends an item. `reserve` makes the room for it.
    pub fn push(&mut self, x: u64)
        requires room { 0 < self.old.spare }
        requires fits { FitsWord self.old.wide x }
        ensures items { self.new.items ≡ self.old.items ++ x ∷ [] }
        ensures spare { self.new.spare + 1 ≡ self.old.spare }
        ensures wide { self.new.wide ≡ self.old.wide }
    {
        self.words.push_reserved(x);
    }

    /// Appends items. `reserve` makes the room for them.
    pub fn append(&mut self, xs: &[u32])
        requires { length xs.now ≤ self.old.spare }
        ensures items { self.new.items ≡ self.old.items ++ xs.now }
        ensures spare { self.new.spare + length xs.now ≡ self.old.spare }
        ensures wide { self.new.wide ≡ self.old.wide }
    {
        self.words.append_reserved(xs);
    }

    /// Appends `n` items, each of them `x`. `reserve` makes the room for them.
    pub fn push_copies(&mut self, n: u64, x: u64)
        requires room { n ≤ self.old.spare }
        requires fits { FitsWord self.old.wide x }
        ensures items { self.new.items ≡ self.old.items ++ replicate n x }
        ensures spare { self.new.spare + n ≡ self.old.spare }
        ensures wide { self.new.wide ≡ self.old.wide }
    {
        for _pushed in 0..n {
            self.push(x);
        }
    }

    /// Puts `x` in the place of the item at `i`, counted from 0.
    pub fn set(&mut self, i: u64, x: u64)
        requires place { i < length self.old.items }
        requires fits { FitsWord self.old.wide x }
        ensures items { self.new.items ≡ slice_set self.old.items i x }
        ensures spare { self.new.spare ≡ self.old.spare }
        ensures wide { self.new.wide ≡ self.old.wide }
    {
        self.words.set(i as usize, x);
    }
}
