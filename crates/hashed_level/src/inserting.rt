use crate::hashed::HashedLevel;
use level_core::Insert;
use std::alloc::AllocError;

impl Insert for HashedLevel {
    fn prepare(&mut self, parents: u64, most: u64) -> Result<(), AllocError> {
        self.make_blocks(parents, most)
    }

    fn insert_coord(&mut self, parent: u64, x: u64) -> u64 {
        self.put_below(parent, x)
    }
}
