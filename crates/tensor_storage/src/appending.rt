use crate::level::{StorageLevel, of_each_appended};
use level_core::Append;
use std::alloc::AllocError;

impl Append for StorageLevel {
    ghost use Rattle.tensor_storage.specs.Levels.{spare_of};

    ghost spare = { spare_of };

    fn reserve(&mut self, n: u64, parents: u64) -> Result<(), AllocError> {
        of_each_appended!(self, it => it.reserve(n, parents), Ok(()))
    }

    fn append_coord(&mut self, x: u64) {
        of_each_appended!(self, it => it.append_coord(x), {})
    }

    fn append_coords(&mut self, xs: &[u32]) {
        of_each_appended!(self, it => it.append_coords(xs), {})
    }

    fn append_edges(&mut self, parent: u64, begin: u64, end: u64) {
        of_each_appended!(self, it => it.append_edges(parent, begin, end), {})
    }

    fn finish(&mut self, parents: u64) {
        of_each_appended!(self, it => it.finish(parents), {})
    }
}
