use crate::singleton::SingletonLevel;
use coordinate_lists::{append_code, child_code, coord_code};
use kernel_code::{KExpr, KStmt};
use level_core::{Letter, LevelKind, argument, leave_two};
use std::alloc::{AllocError, Global};
use trees::Items;

impl LevelKind for SingletonLevel {
    ghost use Rattle.singleton_level.specs.Singleton as singleton;
    ghost use Rattle.singleton_level.specs.Laws.{laws as singleton_laws};

    ghost meaning = { singleton.meaning };

    ghost laws = { singleton_laws };

    fn letter(&self) -> Letter {
        if self.unique {
            Letter::Singleton
        } else {
            Letter::SingletonGroups
        }
    }

    fn frag_segment(
        &self,
        alloc: Global,
        _tensor: u64,
        _level: u64,
        args: &[KExpr],
        free: u64,
    ) -> Result<Items<KStmt>, AllocError> {
        let lo = argument(alloc, args, 0)?;
        let hi = argument(alloc, args, 1)?;
        let code = leave_two(alloc, free, lo, hi)?;
        Ok(code)
    }

    fn frag_coord(
        &self,
        alloc: Global,
        tensor: u64,
        level: u64,
        args: &[KExpr],
        free: u64,
    ) -> Result<Items<KStmt>, AllocError> {
        let code = coord_code(alloc, tensor, level, args, free)?;
        Ok(code)
    }

    fn frag_child(
        &self,
        alloc: Global,
        tensor: u64,
        level: u64,
        args: &[KExpr],
        free: u64,
    ) -> Result<Items<KStmt>, AllocError> {
        let code = child_code(alloc, self.unique, tensor, level, args, free)?;
        Ok(code)
    }

    fn frag_locate(
        &self,
        alloc: Global,
        _tensor: u64,
        _level: u64,
        _args: &[KExpr],
        _free: u64,
    ) -> Result<Items<KStmt>, AllocError> {
        Ok(Items::new(alloc))
    }

    fn frag_reserve(
        &self,
        alloc: Global,
        _tensor: u64,
        _level: u64,
        _args: &[KExpr],
        _free: u64,
    ) -> Result<Items<KStmt>, AllocError> {
        Ok(Items::new(alloc))
    }

    fn frag_append(
        &self,
        alloc: Global,
        _tensor: u64,
        level: u64,
        args: &[KExpr],
        _free: u64,
    ) -> Result<Items<KStmt>, AllocError> {
        let code = append_code(alloc, level, args)?;
        Ok(code)
    }

    fn frag_edges(
        &self,
        alloc: Global,
        _tensor: u64,
        _level: u64,
        _args: &[KExpr],
        _free: u64,
    ) -> Result<Items<KStmt>, AllocError> {
        Ok(Items::new(alloc))
    }

    fn frag_prepare(
        &self,
        alloc: Global,
        _tensor: u64,
        _level: u64,
        _args: &[KExpr],
        _free: u64,
    ) -> Result<Items<KStmt>, AllocError> {
        Ok(Items::new(alloc))
    }

    fn frag_insert(
        &self,
        alloc: Global,
        _tensor: u64,
        _level: u64,
        _args: &[KExpr],
        _free: u64,
    ) -> Result<Items<KStmt>, AllocError> {
        Ok(Items::new(alloc))
    }
}
