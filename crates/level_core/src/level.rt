ghost use Rattle.std.specs.Prelude.{◌≡◌, Some, IfOk, true};
ghost use Rattle.kernel_code.specs.Meaning.{length_of, word_at};
ghost use Rattle.level_core.specs.Entries.{Span, Entry, IsIn, StandsAt, coord_at, position_of, one};
ghost use Rattle.level_core.specs.Kinds.{properties, capabilities};
ghost use Rattle.level_core.specs.Fragments.{AreArguments};
ghost use Rattle.level_core.specs.Meaning.{Meaning};
ghost use Rattle.level_core.specs.Laws.{Laws};
ghost use Rattle.level_core.specs.Codes.{SegmentCode, CoordCode, ChildCode, LocateCode, ReserveCode, AppendCode, EdgesCode};
ghost use Rattle.level_core.specs.Codes.{PrepareCode, InsertCode};

use crate::arrays::LevelArray;
use crate::letter::{Capabilities, Letter, Properties, caps_of, props_of};
use crate::span::{Entry, Span};
use kernel_code::{KExpr, KStmt};
use std::alloc::{AllocError, Global};
use trees::Items;

/// A kind of level with its code. A fragment is the code of a call of `Level`, `Append` or `Insert` for the
/// level numbered `level` (from 1) of a tensor: its arguments `args` are expressions over variables below
/// `free`, and it leaves its answer in the variables from `free` on and sets none below: a span in two, an
/// option as 1 and the number, or as 0. A kind has the fragments of the calls that its capabilities name: what
/// another fragment answers isn't said. Fragments are refused for want of memory alone. Their code does what the
/// call does, also without the call's conditions on lengths of arrays: it is refused a growth exactly where the
/// positions of an array would pass the limit.
pub trait LevelKind {
    /// What is seen of a level.
    ghost meaning: { Meaning Self };

    /// The kind's letter.
    fn letter(&self) -> Letter
        ensures { result ≡ meaning.kind self.now };

    /// What is true of the entries below each allowed parent.
    fn props(&self) -> Properties
        ensures { result ≡ properties (meaning.kind self.now) }
    {
        props_of(self.letter())
    }

    /// What can be done with the level.
    fn caps(&self) -> Capabilities
        ensures { result ≡ capabilities (meaning.kind self.now) }
    {
        caps_of(self.letter())
    }

    /// Code for `segment`, of a parent's two ends.
    fn frag_segment(
        &self,
        alloc: Global,
        tensor: u64,
        level: u64,
        args: &[KExpr],
        free: u64,
    ) -> Result<Items<KStmt>, AllocError>
        requires { AreArguments 2 free args.now }
        ensures { IfOk result (SegmentCode meaning (meaning.kind self.now) tensor level args.now free) };

    /// Code for `coord`, of a position.
    fn frag_coord(
        &self,
        alloc: Global,
        tensor: u64,
        level: u64,
        args: &[KExpr],
        free: u64,
    ) -> Result<Items<KStmt>, AllocError>
        requires { AreArguments 1 free args.now }
        ensures { IfOk result (CoordCode meaning (meaning.kind self.now) tensor level args.now free) };

    /// Code for `child`, of a position and the two ends of its segment.
    fn frag_child(
        &self,
        alloc: Global,
        tensor: u64,
        level: u64,
        args: &[KExpr],
        free: u64,
    ) -> Result<Items<KStmt>, AllocError>
        requires { AreArguments 3 free args.now }
        ensures { IfOk result (ChildCode meaning (meaning.kind self.now) tensor level args.now free) };

    /// Code for `locate`, of a parent and a coordinate.
    fn frag_locate(
        &self,
        alloc: Global,
        tensor: u64,
        level: u64,
        args: &[KExpr],
        free: u64,
    ) -> Result<Items<KStmt>, AllocError>
        requires { AreArguments 2 free args.now }
        ensures { IfOk result (LocateCode meaning (meaning.kind self.now) tensor level args.now free) };

    /// Code for `reserve`, of a number of coordinates and a number of parents.
    fn frag_reserve(
        &self,
        alloc: Global,
        tensor: u64,
        level: u64,
        args: &[KExpr],
        free: u64,
    ) -> Result<Items<KStmt>, AllocError>
        requires arguments { AreArguments 2 free args.now }
        requires result { tensor ≡ 0 }
        ensures { IfOk result (ReserveCode meaning (meaning.kind self.now) tensor level args.now free) };

    /// Code for `append_coord`, of a coordinate.
    fn frag_append(
        &self,
        alloc: Global,
        tensor: u64,
        level: u64,
        args: &[KExpr],
        free: u64,
    ) -> Result<Items<KStmt>, AllocError>
        requires arguments { AreArguments 1 free args.now }
        requires result { tensor ≡ 0 }
        ensures { IfOk result (AppendCode meaning (meaning.kind self.now) tensor level args.now free) };

    /// Code for `append_edges`, of a parent and the first position below it and the end of them.
    fn frag_edges(
        &self,
        alloc: Global,
        tensor: u64,
        level: u64,
        args: &[KExpr],
        free: u64,
    ) -> Result<Items<KStmt>, AllocError>
        requires arguments { AreArguments 3 free args.now }
        requires result { tensor ≡ 0 }
        ensures { IfOk result (EdgesCode meaning (meaning.kind self.now) tensor level args.now free) };

    /// Code for `prepare`, of a number of parents and the greatest number of coordinates below one.
    fn frag_prepare(
        &self,
        alloc: Global,
        tensor: u64,
        level: u64,
        args: &[KExpr],
        free: u64,
    ) -> Result<Items<KStmt>, AllocError>
        requires arguments { AreArguments 2 free args.now }
        requires result { tensor ≡ 0 }
        ensures { IfOk result (PrepareCode meaning (meaning.kind self.now) tensor level args.now free) };

    /// Code for `insert_coord`, of a parent and a coordinate.
    fn frag_insert(
        &self,
        alloc: Global,
        tensor: u64,
        level: u64,
        args: &[KExpr],
        free: u64,
    ) -> Result<Items<KStmt>, AllocError>
        requires arguments { AreArguments 2 free args.now }
        requires result { tensor ≡ 0 }
        ensures { IfOk result (InsertCode meaning (meaning.kind self.now) tensor level args.now free) };

    /// What is true of the levels of every kind.
    ghost laws: { Laws meaning };
}

/// A level that can be read. None of these calls takes memory.
pub trait Level: LevelKind {
    /// Tells that the level keeps the rules of its kind.
    fn tell_rules(&self)
        ensures { Self.meaning.keeps self.now };

    /// The positions below an allowed parent.
    fn segment(&self, parent: Span) -> Span
        requires { Self.meaning.allowed self.now parent }
        ensures { result ≡ Self.meaning.segment_of self.now parent };

    /// The coordinate of a position of the segment of an allowed parent. There is none exactly at an empty slot.
    fn coord(&self, pos: u64) -> Option<u64>
        requires { (parent : Span) × Self.meaning.allowed self.now parent × IsIn pos (Self.meaning.segment_of self.now parent) }
        ensures { (parent : Span) → Self.meaning.allowed self.now parent → IsIn pos (Self.meaning.segment_of self.now parent)
            → result ≡ coord_at (Self.meaning.entries self.now parent) pos };

    /// The child positions of the coordinate whose first position this is, in the segment of an allowed parent.
    fn child(&self, pos: u64, segment: Span) -> Span
        requires { (parent : Span) × (e : Entry) × Self.meaning.allowed self.now parent
            × (Self.meaning.segment_of self.now parent ≡ segment) × StandsAt pos e (Self.meaning.entries self.now parent) }
        ensures { (parent : Span) (e : Entry) → Self.meaning.allowed self.now parent → Self.meaning.segment_of self.now parent ≡ segment
            → StandsAt pos e (Self.meaning.entries self.now parent) → result ≡ e.child };

    /// The position of a coordinate below an allowed parent, of a kind that locates coordinates. There is none exactly
    /// where the coordinate isn't there.
    fn locate(&self, parent: u64, x: u64) -> Option<u64>
        requires { Self.meaning.allowed self.now (one parent) }
        ensures { (capabilities (Self.meaning.kind self.now)).locate ≡ true
            → result ≡ position_of (Self.meaning.entries self.now (one parent)) x };

    /// The number of words of an array, if the level has it.
    fn array_len(&self, array: LevelArray) -> Option<u64>
        ensures { result ≡ length_of (Self.meaning.words self.now array) };

    /// The word of an array at a place, counted from 0, if it is there.
    fn array_word(&self, array: LevelArray, at: u64) -> Option<u64>
        ensures { result ≡ word_at (Self.meaning.words self.now array) (Some at) };
}
