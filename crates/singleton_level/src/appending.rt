use crate::singleton::SingletonLevel;
use level_core::{Append, Stage};
use std::alloc::AllocError;

impl Append for SingletonLevel {
    ghost spare = { λ l. l.spare };

    fn reserve(&mut self, n: u64, parents: u64) -> Result<(), AllocError> {
        self.coords.reserve(n)?;
        self.parents = self.parents.max(parents);
        self.stage = Stage::Unfinished;
        Ok(())
    }

    fn append_coord(&mut self, x: u64) {
        self.coords.push(x);
    }

    fn append_coords(&mut self, xs: &[u32]) {
        self.coords.append(xs);
    }

    fn append_edges(&mut self, _parent: u64, _begin: u64, _end: u64) {}

    fn finish(&mut self, _parents: u64) {
        self.stage = Stage::Finished;
    }
}
