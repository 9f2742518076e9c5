use crate::dense::DenseLevel;
use level_core::Insert;
use std::alloc::AllocError;

impl Insert for DenseLevel {
    fn prepare(&mut self, _parents: u64, _most: u64) -> Result<(), AllocError> {
        Ok(())
    }

    fn insert_coord(&mut self, parent: u64, x: u64) -> u64 {
        let slot = self.place_of(parent, x);
        slot
    }
}
