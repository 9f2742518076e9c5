use crate::level::{StorageLevel, of_each_inserted};
use level_core::Insert;
use std::alloc::AllocError;

impl Insert for StorageLevel {
    fn prepare(&mut self, parents: u64, most: u64) -> Result<(), AllocError> {
        of_each_inserted!(self, it => it.prepare(parents, most), Ok(()))
    }

    fn insert_coord(&mut self, parent: u64, x: u64) -> u64 {
        of_each_inserted!(self, it => it.insert_coord(parent, x), 0)
    }
}
