ghost use Rattle.std.specs.Prelude.{◌≡◌, ◌≤◌, ◌<◌, ◌+◌, ℕ, length, OnOk, OnErr};
ghost use Rattle.limits.specs.Limits.{greatest_position_count};
ghost use Rattle.level_core.specs.Entries.{one};
ghost use Rattle.level_core.specs.Kinds.{positions_for, MayPrepare, MayInsert};
ghost use Rattle.level_core.specs.Logs.{MayReserve, MayAppend, MayAppendAll, MayAppendEdges, MayFinish};
ghost use Rattle.level_core.specs.Logs.{with_parents, with_coord, with_coords, with_edges};
ghost use Rattle.level_core.specs.Meaning.{ChangesLog, Finishes};

use crate::level::Level;
use std::alloc::AllocError;

/// A level whose coordinates are appended in the order of positions. From the first `reserve` on until
/// `finish` it is unfinished and can't be read.
pub trait Append: Level {
    /// How many coordinates can be appended before memory is wanted again.
    ghost spare: { Self → ℕ };

    /// Makes room for `n` more coordinates and for so many parents. Refused for want of memory, the level is as before.
    fn reserve(&mut self, n: u64, parents: u64) -> Result<(), AllocError>
        requires { MayReserve parents (Self.meaning.log self.old) }
        ensures log { OnOk result
            (ChangesLog Self.meaning (with_parents (Self.meaning.kind self.old) parents (Self.meaning.log self.old)) self.old self.new) }
        ensures spare { OnOk result (n ≤ spare self.new) }
        ensures err { OnErr result (self.new ≡ self.old) };

    /// Appends a coordinate, whose position is the number of those before it. It takes no memory.
    fn append_coord(&mut self, x: u64)
        requires may { MayAppend (Self.meaning.kind self.old) (Self.meaning.size self.old) x (Self.meaning.log self.old) }
        requires spare { 0 < spare self.old }
        requires room { length (Self.meaning.log self.old).coords < greatest_position_count }
        ensures log { ChangesLog Self.meaning (with_coord x (Self.meaning.log self.old)) self.old self.new }
        ensures spare { spare self.new + 1 ≡ spare self.old };

    /// Appends coordinates, one after another, as `append_coord` does. It takes no memory.
    fn append_coords(&mut self, xs: &[u32])
        requires may { MayAppendAll (Self.meaning.kind self.old) (Self.meaning.size self.old) xs.now (Self.meaning.log self.old) }
        requires spare { length xs.now ≤ spare self.old }
        requires room { length (Self.meaning.log self.old).coords + length xs.now ≤ greatest_position_count }
        ensures log { ChangesLog Self.meaning (with_coords xs.now (Self.meaning.log self.old)) self.old self.new }
        ensures spare { spare self.new + length xs.now ≡ spare self.old };

    /// Gives a parent the positions from `begin`, where the last parent's ended, to `end`, where the coordinates that were
    /// appended end. At singleton levels it does nothing. It takes no memory.
    fn append_edges(&mut self, parent: u64, begin: u64, end: u64)
        requires { MayAppendEdges (Self.meaning.kind self.old) parent begin end (Self.meaning.log self.old) }
        ensures log { ChangesLog Self.meaning
            (with_edges (Self.meaning.kind self.old) parent begin end (Self.meaning.log self.old)) self.old self.new }
        ensures spare { spare self.new ≡ spare self.old };

    /// Finishes the level: each parent has the positions that it was given, none if it was given none, and its
    /// entries are the groups of their coordinates. It takes no memory.
    fn finish(&mut self, parents: u64)
        requires { MayFinish parents (Self.meaning.log self.old) }
        ensures { Finishes Self.meaning parents self.old self.new };
}

/// A level that coordinates can be inserted into at any time.
pub trait Insert: Level {
    /// Makes room for so many parents of at most `most` coordinates each. Refused for want of memory, the level is as before.
    fn prepare(&mut self, parents: u64, most: u64) -> Result<(), AllocError>
        requires may { MayPrepare (Self.meaning.kind self.old) (Self.meaning.width self.old) most }
        requires within { positions_for (Self.meaning.kind self.old) (Self.meaning.size self.old) parents most ≤ greatest_position_count }
        ensures ok { OnOk result (Self.meaning.prepared self.old parents most self.new) }
        ensures err { OnErr result (self.new ≡ self.old) };

    /// Inserts a coordinate below an allowed parent and answers its position. At dense levels it is there already, and
    /// nothing changes. It takes no memory.
    fn insert_coord(&mut self, parent: u64, x: u64) -> u64
        requires parent { Self.meaning.allowed self.old (one parent) }
        requires may { MayInsert (Self.meaning.kind self.old) (Self.meaning.size self.old) (Self.meaning.segment_of self.old (one parent))
            (Self.meaning.entries self.old (one parent)) x }
        ensures { Self.meaning.inserted self.old parent x result self.new };
}
