use crate::code::{edges_code, reserve_code};
use crate::compressed::CompressedLevel;
use coordinate_lists::{append_code, child_code, coord_code};
use kernel_code::{Arr, KExpr, KStmt, word_at};
use level_core::{Letter, LevelKind, argument, leave_two};
use std::alloc::{AllocError, Global};
use trees::Items;

impl LevelKind for CompressedLevel {
    ghost use Rattle.compressed_level.specs.Compressed as compressed;
    ghost use Rattle.compressed_level.specs.Laws.{laws as compressed_laws};

    ghost meaning = { compressed.meaning };

    ghost laws = { compressed_laws };

    fn letter(&self) -> Letter {
        if self.unique {
            Letter::Compressed
        } else {
            Letter::CompressedGroups
        }
    }

    fn frag_segment(
        &self,
        alloc: Global,
        tensor: u64,
        level: u64,
        args: &[KExpr],
        free: u64,
    ) -> Result<Items<KStmt>, AllocError> {
        let lo = argument(alloc, args, 0)?;
        let hi = argument(alloc, args, 1)?;
        let begin = word_at(alloc, Arr::Ends(tensor, level), lo)?;
        let end = word_at(alloc, Arr::Ends(tensor, level), hi)?;
        let code = leave_two(alloc, free, begin, end)?;
        Ok(code)
    }

    fn frag_coord(
        &self,
        alloc: Global,
        tensor: u64,
        level: u64,
        args: &[KExpr],
        free: u64,
    ) -> Result<Items<KStmt>, AllocError> {
        let code = coord_code(alloc, tensor, level, args, free)?;
        Ok(code)
    }

    fn frag_child(
        &self,
        alloc: Global,
        tensor: u64,
        level: u64,
        args: &[KExpr],
        free: u64,
    ) -> Result<Items<KStmt>, AllocError> {
        let code = child_code(alloc, self.unique, tensor, level, args, free)?;
        Ok(code)
    }

    fn frag_locate(
        &self,
        alloc: Global,
        _tensor: u64,
        _level: u64,
        _args: &[KExpr],
        _free: u64,
    ) -> Result<Items<KStmt>, AllocError> {
        Ok(Items::new(alloc))
    }

    fn frag_reserve(
        &self,
        alloc: Global,
        _tensor: u64,
        level: u64,
        args: &[KExpr],
        _free: u64,
    ) -> Result<Items<KStmt>, AllocError> {
        let code = reserve_code(alloc, level, args)?;
        Ok(code)
    }

    fn frag_append(
        &self,
        alloc: Global,
        _tensor: u64,
        level: u64,
        args: &[KExpr],
        _free: u64,
    ) -> Result<Items<KStmt>, AllocError> {
        let code = append_code(alloc, level, args)?;
        Ok(code)
    }

    fn frag_edges(
        &self,
        alloc: Global,
        _tensor: u64,
        level: u64,
        args: &[KExpr],
        _free: u64,
    ) -> Result<Items<KStmt>, AllocError> {
        let code = edges_code(alloc, level, args)?;
        Ok(code)
    }

    fn frag_prepare(
        &self,
        alloc: Global,
        _tensor: u64,
        _level: u64,
        _args: &[KExpr],
        _free: u64,
    ) -> Result<Items<KStmt>, AllocError> {
        Ok(Items::new(alloc))
    }

    fn frag_insert(
        &self,
        alloc: Global,
        _tensor: u64,
        _level: u64,
        _args: &[KExpr],
        _free: u64,
    ) -> Result<Items<KStmt>, AllocError> {
        Ok(Items::new(alloc))
    }
}
