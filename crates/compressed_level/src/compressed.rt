ghost use Rattle.std.specs.Prelude.{◌≡◌, ◌≤◌, true, IfOk};
ghost use Rattle.limits.specs.Limits.{greatest_position_count};

use coordinate_lists::{Indices, needs_wide};
use level_core::Stage;
use seg_buffer::Lent;
use std::alloc::{AllocError, Global};
use std::marker::Model;

/// A compressed level: a parent has the positions from where the last parent's end to where its own end, and
/// each position has a coordinate. Where the level is unique (letter `s`) the coordinates of a parent rise
/// strictly; else (`u`) they never fall, and equal ones in a row are a group.
#[derive(Drop)]
pub struct CompressedLevel {
    pub(crate) size: u64,
    pub(crate) unique: bool,
    pub(crate) stage: Stage,
    /// One more than there are parents. Until the level is finished, the number of positions of each parent
    /// behind a zero; then where each parent's positions begin, and the end of the last.
    pub(crate) ends: Indices,
    pub(crate) coords: Indices,
    /// The least parent that may be given positions.
    pub(crate) next: u64,
}

impl Model for CompressedLevel {
    ghost use Rattle.std.specs.Prelude.{◌≡◌, true};
    ghost use Rattle.coordinate_lists.specs.Widths.{needs_wide};
    ghost use Rattle.compressed_level.specs.Compressed.{CompressedLevel as Level, stored, KeepsRules, IsStored};

    ghost Value = { Level };

    ghost view = { λ l. stored l.size l.unique l.stage l.ends.items l.coords.items l.next l.coords.spare };

    ghost invariant = { λ l. KeepsRules (stored l.size l.unique l.stage l.ends.items l.coords.items l.next l.coords.spare)
        × IsStored l.stage l.ends.items × (l.coords.wide ≡ needs_wide l.size) × (l.ends.wide ≡ true) };
}

impl CompressedLevel {
    ghost use Rattle.seg_buffer.specs.WordBuffer.{lent_items, lent_wide};
    ghost use Rattle.coordinate_lists.specs.Widths.{needs_wide};
    ghost use Rattle.compressed_level.specs.Compressed.{fresh, ends_of};

    /// A level without parents, for coordinates below `n`. Refused for want of memory alone.
    pub fn new(alloc: Global, n: u64, unique: bool) -> Result<CompressedLevel, AllocError>
        requires { n ≤ greatest_position_count }
        ensures { IfOk result (λ l. l ≡ fresh n unique) }
    {
        let mut ends = Indices::new(alloc, true);
        ends.reserve(1)?;
        ends.push(0);
        Ok(CompressedLevel {
            size: n,
            unique,
            stage: Stage::Fresh,
            ends,
            coords: Indices::new(alloc, needs_wide(n)),
            next: 0,
        })
    }
    /// The coordinates of the positions: eight bytes each where the range is above 2^32, and else four.
    pub fn coordinates(&self) -> Lent<'_>
        ensures items { lent_items result ≡ self.now.log.coords }
        ensures wide { lent_wide result ≡ needs_wide self.now.size }
    {
        self.coords.lent()
    }

    /// The array of segment ends, eight bytes each.
    pub fn ends(&self) -> Lent<'_>
        ensures items { lent_items result ≡ ends_of self.now.log.stage self.now.log.counts }
        ensures wide { lent_wide result ≡ true }
    {
        self.ends.lent()
    }
}
