ghost use Rattle.std.specs.Prelude.{◌≡◌, ◌≤◌, ℕ, IfOk, IsOk};
ghost use Rattle.limits.specs.Limits.{greatest_position_count};

use coordinate_lists::{Indices, needs_wide};
use level_core::Stage;
use seg_buffer::Lent;
use std::alloc::{AllocError, Global};
use std::marker::Model;

/// A singleton level: each position of the level above is a position of its own, and has one coordinate. A parent
/// is one or more such positions in a row. Where the level is unique (letter `q`) the coordinates of a parent rise
/// strictly; else (`c`) they never fall, and equal ones in a row are a group.
#[derive(Drop)]
pub struct SingletonLevel {
    pub(crate) size: u64,
    pub(crate) unique: bool,
    pub(crate) stage: Stage,
    /// How many parents were reserved.
    pub(crate) parents: u64,
    pub(crate) coords: Indices,
}

impl Model for SingletonLevel {
    ghost use Rattle.std.specs.Prelude.{◌≡◌};
    ghost use Rattle.coordinate_lists.specs.Widths.{needs_wide};
    ghost use Rattle.singleton_level.specs.Singleton.{SingletonLevel as Level, stored, KeepsRules};

    ghost Value = { Level };

    ghost view = { λ l. stored l.size l.unique l.stage l.parents l.coords.items l.coords.spare };

    ghost invariant = { λ l. KeepsRules (stored l.size l.unique l.stage l.parents l.coords.items l.coords.spare)
        × (l.coords.wide ≡ needs_wide l.size) };
}

impl SingletonLevel {
    ghost use Rattle.seg_buffer.specs.WordBuffer.{lent_items, lent_wide};
    ghost use Rattle.coordinate_lists.specs.Widths.{needs_wide};
    ghost use Rattle.singleton_level.specs.Handed.{HasWords, listed};
    ghost use Rattle.singleton_level.specs.Singleton.{SingletonLevel as Level, fresh};

    /// A level without parents, for coordinates below `n`. It takes no memory.
    pub fn new(alloc: Global, n: u64, unique: bool) -> Result<SingletonLevel, AllocError>
        requires { n ≤ greatest_position_count }
        ensures made { IfOk result (λ l. l ≡ fresh n unique) }
        ensures always { IsOk result }
    {
        Ok(SingletonLevel {
            size: n,
            unique,
            stage: Stage::Fresh,
            parents: 0,
            coords: Indices::new(alloc, needs_wide(n)),
        })
    }

    /// The finished level of coordinates, one for each parent. Refused for want of memory alone.
    pub fn from_words(
        alloc: Global,
        n: u64,
        unique: bool,
        coords: &[u64],
    ) -> Result<SingletonLevel, AllocError>
        requires { (parents : ℕ) × (l : Level) × HasWords n unique parents coords.now l }
        ensures { IfOk result (λ l. (spare : ℕ) × (l ≡ listed n unique coords.now spare)) }
    {
        let coords = Indices::copied(alloc, needs_wide(n), coords)?;
        Ok(SingletonLevel {
            size: n,
            unique,
            stage: Stage::Finished,
            parents: coords.len(),
            coords,
        })
    }
    /// The coordinates of the positions: eight bytes each where the range is above 2^32, and else four.
    pub fn coordinates(&self) -> Lent<'_>
        ensures items { lent_items result ≡ self.now.coords }
        ensures wide { lent_wide result ≡ needs_wide self.now.size }
    {
        self.coords.lent()
    }
}
