use crate::compressed::CompressedLevel;
use crate::sums::sum_up;
use level_core::{Append, Stage};
use std::alloc::AllocError;

impl Append for CompressedLevel {
    ghost spare = { λ l. l.spare };

    fn reserve(&mut self, n: u64, parents: u64) -> Result<(), AllocError> {
        let known = self.ends.len() - 1;
        let more = parents.saturating_sub(known);
        self.ends.reserve(more)?;
        self.coords.reserve(n)?;
        self.ends.push_copies(more, 0);
        self.stage = Stage::Unfinished;
        Ok(())
    }

    fn append_coord(&mut self, x: u64) {
        self.coords.push(x);
    }

    fn append_coords(&mut self, xs: &[u32]) {
        self.coords.append(xs);
    }

    fn append_edges(&mut self, parent: u64, begin: u64, end: u64) {
        self.ends.set(parent + 1, end - begin);
        self.next = parent + 1;
    }

    fn finish(&mut self, _parents: u64) {
        sum_up(&mut self.ends);
        self.stage = Stage::Finished;
    }
}
