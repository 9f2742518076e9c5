//! The code of a level of any kind: that of its kind.
ghost use Rattle.std.specs.Prelude.{IfOk};
ghost use Rattle.level_core.specs.Meaning.{Meaning};
ghost use Rattle.tensor_storage.specs.Calls.{MayAsk, CallCode};
ghost use Rattle.tensor_storage.specs.Levels.{meaning as level_meaning};

use crate::level::{StorageLevel, of_each_kind};
use kernel_code::{KExpr, KStmt};
use level_core::{Letter, LevelKind};
use std::alloc::{AllocError, Global};
use trees::Items;

/// The calls of a level that have code.
#[derive(Clone, Copy)]
pub(crate) enum Call {
    Segment,
    Coord,
    Child,
    Locate,
    Reserve,
    Append,
    Edges,
    Prepare,
    Insert,
}

/// The code of a call of a level of a kind.
fn code_of<K: LevelKind>(
    it: &K,
    alloc: Global,
    call: Call,
    tensor: u64,
    level: u64,
    args: &[KExpr],
    free: u64,
) -> Result<Items<KStmt>, AllocError>
    requires { MayAsk call tensor args.now free }
    ensures { IfOk result (CallCode call K.meaning (K.meaning.kind it.now) tensor level args.now free) }
{
    match call {
        Call::Segment => it.frag_segment(alloc, tensor, level, args, free),
        Call::Coord => it.frag_coord(alloc, tensor, level, args, free),
        Call::Child => it.frag_child(alloc, tensor, level, args, free),
        Call::Locate => it.frag_locate(alloc, tensor, level, args, free),
        Call::Reserve => it.frag_reserve(alloc, tensor, level, args, free),
        Call::Append => it.frag_append(alloc, tensor, level, args, free),
        Call::Edges => it.frag_edges(alloc, tensor, level, args, free),
        Call::Prepare => it.frag_prepare(alloc, tensor, level, args, free),
        Call::Insert => it.frag_insert(alloc, tensor, level, args, free),
    }
}

/// The code of a call of a level, of whichever kind it is.
fn code_in(
    stored: &StorageLevel,
    alloc: Global,
    call: Call,
    tensor: u64,
    level: u64,
    args: &[KExpr],
    free: u64,
) -> Result<Items<KStmt>, AllocError>
    requires { MayAsk call tensor args.now free }
    ensures { IfOk result (CallCode call level_meaning (level_meaning.kind stored.now) tensor level args.now free) }
{
    of_each_kind!(stored, it => code_of(it, alloc, call, tensor, level, args, free))
}

impl LevelKind for StorageLevel {
    ghost use Rattle.tensor_storage.specs.Levels as levels;
    ghost use Rattle.tensor_storage.specs.Laws.{laws as level_laws};

    ghost meaning = { levels.meaning };

    ghost laws = { level_laws };

    fn letter(&self) -> Letter {
        of_each_kind!(self, it => it.letter())
    }

    fn frag_segment(
        &self,
        alloc: Global,
        tensor: u64,
        level: u64,
        args: &[KExpr],
        free: u64,
    ) -> Result<Items<KStmt>, AllocError> {
        code_in(self, alloc, Call::Segment, tensor, level, args, free)
    }

    fn frag_coord(
        &self,
        alloc: Global,
        tensor: u64,
        level: u64,
        args: &[KExpr],
        free: u64,
    ) -> Result<Items<KStmt>, AllocError> {
        code_in(self, alloc, Call::Coord, tensor, level, args, free)
    }

    fn frag_child(
        &self,
        alloc: Global,
        tensor: u64,
        level: u64,
        args: &[KExpr],
        free: u64,
    ) -> Result<Items<KStmt>, AllocError> {
        code_in(self, alloc, Call::Child, tensor, level, args, free)
    }

    fn frag_locate(
        &self,
        alloc: Global,
        tensor: u64,
        level: u64,
        args: &[KExpr],
        free: u64,
    ) -> Result<Items<KStmt>, AllocError> {
        code_in(self, alloc, Call::Locate, tensor, level, args, free)
    }

    fn frag_reserve(
        &self,
        alloc: Global,
        tensor: u64,
        level: u64,
        args: &[KExpr],
        free: u64,
    ) -> Result<Items<KStmt>, AllocError> {
        code_in(self, alloc, Call::Reserve, tensor, level, args, free)
    }

    fn frag_append(
        &self,
        alloc: Global,
        tensor: u64,
        level: u64,
        args: &[KExpr],
        free: u64,
    ) -> Result<Items<KStmt>, AllocError> {
        code_in(self, alloc, Call::Append, tensor, level, args, free)
    }

    fn frag_edges(
        &self,
        alloc: Global,
        tensor: u64,
        level: u64,
        args: &[KExpr],
        free: u64,
    ) -> Result<Items<KStmt>, AllocError> {
        code_in(self, alloc, Call::Edges, tensor, level, args, free)
    }

    fn frag_prepare(
        &self,
        alloc: Global,
        tensor: u64,
        level: u64,
        args: &[KExpr],
        free: u64,
    ) -> Result<Items<KStmt>, AllocError> {
        code_in(self, alloc, Call::Prepare, tensor, level, args, free)
    }

    fn frag_insert(
        &self,
        alloc: Global,
        tensor: u64,
        level: u64,
        args: &[KExpr],
        free: u64,
    ) -> Result<Items<KStmt>, AllocError> {
        code_in(self, alloc, Call::Insert, tensor, level, args, free)
    }
}
