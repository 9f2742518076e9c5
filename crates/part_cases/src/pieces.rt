//! A sink in memory that keeps the lengths of its pieces.
use outside::{MemSink, Refusal, Sink};
use std::alloc::Global;

#[derive(Drop)]
pub(crate) struct Pieces {
    pub(crate) sink: MemSink,
    pub(crate) lengths: Vec<usize>,
}

impl Pieces {
    pub(crate) fn new(alloc: Global, sink: MemSink) -> Self {
        Pieces {
            sink,
            lengths: Vec::new(alloc),
        }
    }
}

impl Sink for Pieces {
    ghost state = { λ s. ⟦<MemSink as Sink>⟧.state s.sink };

    fn write(&mut self, piece: &[u8]) -> Result<usize, Refusal> {
        let n = self.sink.write(piece)?;
        let _kept = self.lengths.push(n);
        Ok(n)
    }

    fn finish(&mut self) -> Result<(), Refusal> {
        self.sink.finish()
    }
}
