ghost use Rattle.std.specs.Prelude.{◌≡◌, ◌≤◌, ◌<◌, ◌+◌, ◌*◌, [], None, Some, IfOk, IsOk, OnOk, OnErr, length, slice_get, slice_index};
ghost use Rattle.limits.specs.Limits.{greatest_position_count};
ghost use Rattle.level_core.specs.declared.letter.Letter.TheVariants.{Hashed as HashedLetter};
ghost use Rattle.level_core.specs.Entries.{one, span, position_of};
ghost use Rattle.level_core.specs.Kinds.{positions_for, MayPrepare, MayInsert};
ghost use Rattle.hashed_level.specs.Slots.{coord_of, FirstEmpty};
ghost use Rattle.hashed_level.specs.Hashed.{hashed, KeepsRules, IsAllowed, block_width, base_of, segment_of, entries_of, with_blocks};
ghost use Rattle.hashed_level.specs.Hashed.{Inserted, width_words};

use crate::slots::{coordinate_of, empty_slots, slot_of, sought};
use crate::widths::width_for;
use level_core::Span;
use seg_buffer::Segment;
use std::alloc::{AllocError, Global};
use std::marker::Model;

/// A hashed level: each parent has a block of slots, a power of two, and a coordinate stands in the first free slot from
/// the coordinate modulo the block's width on, wrapping. A position is a slot.
#[derive(Drop)]
pub struct HashedLevel {
    alloc: Global,
    size: u64,
    slots: Segment<u64>,
    width: Option<u64>,
    parents: u64,
}

impl Model for HashedLevel {
    ghost use Rattle.hashed_level.specs.Hashed.{Hashed, hashed, KeepsRules};

    ghost Value = { Hashed };

    ghost view = { λ a. hashed a.size a.slots.items a.width a.parents };

    ghost invariant = { λ a. KeepsRules (hashed a.size a.slots.items a.width a.parents) };
}

impl HashedLevel {
    /// A level of a mode with the range `n`, without parents. It takes no memory.
    pub fn new(alloc: Global, n: u64) -> Result<Self, AllocError>
        requires { n ≤ greatest_position_count }
        ensures made { IfOk result (λ level. level ≡ hashed n [] None 0) }
        ensures always { IsOk result }
    {
        Ok(HashedLevel {
            alloc,
            size: n,
            slots: Segment::new(alloc),
            width: None,
            parents: 0,
        })
    }

    /// A level of a mode with the range `n` and so many prepared parents, each with a block of `width` slots. It takes no
    /// memory.
    pub fn from_slots(alloc: Global, n: u64, width: u64, parents: u64, slots: Segment<u64>) -> Self
        requires { KeepsRules (hashed n slots.items (Some width) parents) }
        ensures { result ≡ hashed n slots.items (Some width) parents }
    {
        HashedLevel {
            alloc,
            size: n,
            slots,
            width: Some(width),
            parents,
        }
    }

    /// Tells that the level keeps the rules.
    pub(crate) fn know_rules(&self)
        ensures { KeepsRules self.now }
    {
        let _size = self.size;
    }

    fn width_now(&self) -> u64
        ensures { result ≡ block_width self.now }
    {
        match self.width {
            None => 2,
            Some(width) => width,
        }
    }

    /// The width of a block, once parents are prepared.
    pub(crate) fn width(&self) -> Option<u64>
        ensures { result ≡ self.now.width }
    {
        self.width
    }

    /// How many words the width is stored in.
    pub(crate) fn width_count(&self) -> u64
        ensures { result ≡ length (width_words self.now.width) }
    {
        match self.width {
            None => 0,
            Some(_) => 1,
        }
    }

    /// The number of slots.
    pub(crate) fn slot_count(&self) -> u64
        ensures { result ≡ length self.now.slots }
    {
        self.slots.len() as u64
    }

    /// The word of a slot, if it is there.
    pub(crate) fn slot(&self, at: u64) -> Option<u64>
        ensures { result ≡ slice_get self.now.slots at }
    {
        self.slots.as_slice().get(at as usize).copied()
    }

    /// The slots of a parent.
    pub(crate) fn block_of(&self, parent: u64) -> Span
        requires { parent < self.now.parents }
        ensures { result ≡ span (base_of self.now parent) (base_of self.now parent + block_width self.now) }
    {
        self.know_rules();
        let width = self.width_now();
        let lo = parent * width;
        Span { lo, hi: lo + width }
    }

    /// The coordinate in a slot.
    pub(crate) fn coordinate_at(&self, slot: u64) -> Option<u64>
        requires { slot < length self.now.slots }
        ensures { result ≡ coord_of (slice_index self.now.slots slot) }
    {
        let slots = self.slots.as_slice();
        let word = slots[slot as usize];
        coordinate_of(word)
    }

    /// The slot of a coordinate below a parent, if it is there.
    pub(crate) fn position_below(&self, parent: u64, x: u64) -> Option<u64>
        requires { IsAllowed self.now (one parent) }
        ensures { result ≡ position_of (entries_of self.now (one parent)) x }
    {
        let block = self.block_of(parent);
        let width = self.width_now();
        slot_of(self.slots.as_slice(), block.lo, width, x)
    }

    /// Makes so many parents without entries. Refused for want of memory, the level is as before.
    pub(crate) fn make_blocks(&mut self, parents: u64, most: u64) -> Result<(), AllocError>
        requires may { MayPrepare HashedLetter self.old.width most }
        requires within { positions_for HashedLetter self.old.size parents most ≤ greatest_position_count }
        ensures ok { OnOk result (self.new ≡ with_blocks self.old parents most) }
        ensures err { OnErr result (self.new ≡ self.old) }
    {
        let width = width_for(most);
        let slots = empty_slots(self.alloc, parents * width)?;
        self.slots = slots;
        self.width = Some(width);
        self.parents = parents;
        Ok(())
    }

    /// Where a coordinate that isn't there is to be put.
    fn slot_for(&self, parent: u64, x: u64) -> u64
        requires parent { IsAllowed self.now (one parent) }
        requires may { MayInsert HashedLetter self.now.size (segment_of self.now (one parent)) (entries_of self.now (one parent)) x }
        ensures { FirstEmpty (slice_index self.now.slots) (block_width self.now) (base_of self.now parent) x result }
    {
        let block = self.block_of(parent);
        let width = self.width_now();
        match sought(self.slots.as_slice(), block.lo, width, x) {
            Some(slot) => slot,
            None => unreachable!("a slot is empty"),
        }
    }

    /// Puts a coordinate that isn't there into the first empty slot, and answers that slot.
    pub(crate) fn put_below(&mut self, parent: u64, x: u64) -> u64
        requires parent { IsAllowed self.old (one parent) }
        requires may { MayInsert HashedLetter self.old.size (segment_of self.old (one parent)) (entries_of self.old (one parent)) x }
        ensures { Inserted self.old parent x result self.new }
    {
        let slot = self.slot_for(parent, x);
        self.slots.set(slot as usize, x);
        slot
    }
}
