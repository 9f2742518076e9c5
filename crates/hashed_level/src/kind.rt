use crate::code::{base_word, coord_code, insert_code, locate_code, prepare_code};
use crate::hashed::HashedLevel;
use kernel_code::{KExpr, KStmt, position_and_next};
use level_core::{Letter, LevelKind, argument, leave_two};
use std::alloc::{AllocError, Global};
use trees::Items;

impl LevelKind for HashedLevel {
    ghost use Rattle.hashed_level.specs.Hashed as hashed;
    ghost use Rattle.hashed_level.specs.Laws.{laws as hashed_laws};

    ghost meaning = { hashed.meaning };

    ghost laws = { hashed_laws };

    fn letter(&self) -> Letter {
        Letter::Hashed
    }

    fn frag_segment(
        &self,
        alloc: Global,
        tensor: u64,
        level: u64,
        args: &[KExpr],
        free: u64,
    ) -> Result<Items<KStmt>, AllocError> {
        let lo = argument(alloc, args, 0)?;
        let hi = argument(alloc, args, 1)?;
        let first = base_word(alloc, tensor, level, lo)?;
        let end = base_word(alloc, tensor, level, hi)?;
        let code = leave_two(alloc, free, first, end)?;
        Ok(code)
    }

    fn frag_coord(
        &self,
        alloc: Global,
        tensor: u64,
        level: u64,
        args: &[KExpr],
        free: u64,
    ) -> Result<Items<KStmt>, AllocError> {
        let pos = argument(alloc, args, 0)?;
        let code = coord_code(alloc, tensor, level, pos, free)?;
        Ok(code)
    }

    fn frag_child(
        &self,
        alloc: Global,
        _tensor: u64,
        _level: u64,
        args: &[KExpr],
        free: u64,
    ) -> Result<Items<KStmt>, AllocError> {
        let pos = argument(alloc, args, 0)?;
        let code = position_and_next(alloc, free, pos)?;
        Ok(code)
    }

    fn frag_locate(
        &self,
        alloc: Global,
        tensor: u64,
        level: u64,
        args: &[KExpr],
        free: u64,
    ) -> Result<Items<KStmt>, AllocError> {
        let parent = argument(alloc, args, 0)?;
        let x = argument(alloc, args, 1)?;
        let code = locate_code(alloc, tensor, level, parent, x, free)?;
        Ok(code)
    }

    fn frag_reserve(
        &self,
        alloc: Global,
        _tensor: u64,
        _level: u64,
        _args: &[KExpr],
        _free: u64,
    ) -> Result<Items<KStmt>, AllocError> {
        Ok(Items::new(alloc))
    }

    fn frag_append(
        &self,
        alloc: Global,
        _tensor: u64,
        _level: u64,
        _args: &[KExpr],
        _free: u64,
    ) -> Result<Items<KStmt>, AllocError> {
        Ok(Items::new(alloc))
    }

    fn frag_edges(
        &self,
        alloc: Global,
        _tensor: u64,
        _level: u64,
        _args: &[KExpr],
        _free: u64,
    ) -> Result<Items<KStmt>, AllocError> {
        Ok(Items::new(alloc))
    }

    fn frag_prepare(
        &self,
        alloc: Global,
        tensor: u64,
        level: u64,
        args: &[KExpr],
        free: u64,
    ) -> Result<Items<KStmt>, AllocError> {
        let parents = argument(alloc, args, 0)?;
        let most = argument(alloc, args, 1)?;
        let code = prepare_code(alloc, tensor, level, parents, most, free)?;
        Ok(code)
    }

    fn frag_insert(
        &self,
        alloc: Global,
        tensor: u64,
        level: u64,
        args: &[KExpr],
        free: u64,
    ) -> Result<Items<KStmt>, AllocError> {
        let parent = argument(alloc, args, 0)?;
        let x = argument(alloc, args, 1)?;
        let code = insert_code(alloc, tensor, level, parent, x, free)?;
        Ok(code)
    }
}
