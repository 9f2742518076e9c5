use crate::code::{locate_code, place_word, times_size};
use crate::dense::DenseLevel;
use kernel_code::{KExpr, KStmt, position_and_next};
use level_core::{Letter, LevelKind, argument, leave_one, leave_two};
use std::alloc::{AllocError, Global};
use trees::Items;

impl LevelKind for DenseLevel {
    ghost use Rattle.dense_level.specs.Dense as dense;
    ghost use Rattle.dense_level.specs.Laws.{laws as dense_laws};

    ghost meaning = { dense.meaning };

    ghost laws = { dense_laws };

    fn letter(&self) -> Letter {
        Letter::Dense
    }

    fn frag_segment(
        &self,
        alloc: Global,
        tensor: u64,
        level: u64,
        args: &[KExpr],
        free: u64,
    ) -> Result<Items<KStmt>, AllocError> {
        let lo = argument(alloc, args, 0)?;
        let hi = argument(alloc, args, 1)?;
        let first = times_size(alloc, tensor, level, lo)?;
        let end = times_size(alloc, tensor, level, hi)?;
        let code = leave_two(alloc, free, first, end)?;
        Ok(code)
    }

    fn frag_coord(
        &self,
        alloc: Global,
        _tensor: u64,
        _level: u64,
        _args: &[KExpr],
        _free: u64,
    ) -> Result<Items<KStmt>, AllocError> {
        Ok(Items::new(alloc))
    }

    fn frag_child(
        &self,
        alloc: Global,
        _tensor: u64,
        _level: u64,
        args: &[KExpr],
        free: u64,
    ) -> Result<Items<KStmt>, AllocError> {
        let pos = argument(alloc, args, 0)?;
        let code = position_and_next(alloc, free, pos)?;
        Ok(code)
    }

    fn frag_locate(
        &self,
        alloc: Global,
        tensor: u64,
        level: u64,
        args: &[KExpr],
        free: u64,
    ) -> Result<Items<KStmt>, AllocError> {
        let parent = argument(alloc, args, 0)?;
        let x = argument(alloc, args, 1)?;
        let code = locate_code(alloc, tensor, level, parent, x, free)?;
        Ok(code)
    }

    fn frag_reserve(
        &self,
        alloc: Global,
        _tensor: u64,
        _level: u64,
        _args: &[KExpr],
        _free: u64,
    ) -> Result<Items<KStmt>, AllocError> {
        Ok(Items::new(alloc))
    }

    fn frag_append(
        &self,
        alloc: Global,
        _tensor: u64,
        _level: u64,
        _args: &[KExpr],
        _free: u64,
    ) -> Result<Items<KStmt>, AllocError> {
        Ok(Items::new(alloc))
    }

    fn frag_edges(
        &self,
        alloc: Global,
        _tensor: u64,
        _level: u64,
        _args: &[KExpr],
        _free: u64,
    ) -> Result<Items<KStmt>, AllocError> {
        Ok(Items::new(alloc))
    }

    fn frag_prepare(
        &self,
        alloc: Global,
        _tensor: u64,
        _level: u64,
        _args: &[KExpr],
        _free: u64,
    ) -> Result<Items<KStmt>, AllocError> {
        Ok(Items::new(alloc))
    }

    fn frag_insert(
        &self,
        alloc: Global,
        tensor: u64,
        level: u64,
        args: &[KExpr],
        free: u64,
    ) -> Result<Items<KStmt>, AllocError> {
        let parent = argument(alloc, args, 0)?;
        let x = argument(alloc, args, 1)?;
        let place = place_word(alloc, tensor, level, parent, x)?;
        let code = leave_one(alloc, free, place)?;
        Ok(code)
    }
}
