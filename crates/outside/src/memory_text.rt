// A sink in memory that never fails.
ghost use Rattle.std.specs.Prelude.{◌≡◌, Some, true, []};
ghost use Rattle.outside.specs.Sink.{alone};

use crate::count::raised;
use crate::refusal::Refusal;
use crate::sink::Sink;
use std::alloc::Global;

#[derive(Drop)]
pub struct MemoryText {
    bytes: Vec<u8>,
    is_unfinished: bool,
    wants: u64,
}

impl MemoryText {
    pub(crate) fn new(alloc: Global) -> Self
        ensures bytes { result.bytes.items ≡ [] }
        ensures unfinished { result.is_unfinished ≡ true }
        ensures wants { result.wants ≡ 0 }
    {
        MemoryText {
            bytes: Vec::new(alloc),
            is_unfinished: true,
            wants: 0,
        }
    }

    pub(crate) fn bytes(&self) -> &[u8]
        ensures { result.now ≡ self.now.bytes.items }
    {
        self.bytes.as_slice()
    }

    pub(crate) fn is_unfinished(&self) -> bool
        ensures { result ≡ self.now.is_unfinished }
    {
        self.is_unfinished
    }

    pub(crate) fn wants(&self) -> u64
        ensures { result ≡ self.now.wants }
    {
        self.wants
    }
}

impl Sink for MemoryText {
    ghost state = { λ s. record {
      written = Some s.bytes.items;
      unfinished = s.is_unfinished;
      faults = 0;
      wants = s.wants;
      beside = alone;
    } };

    fn write(&mut self, piece: &[u8]) -> Result<usize, Refusal> {
        match self.bytes.extend_from_slice(piece) {
            Ok(()) => {
                self.is_unfinished = true;
                Ok(piece.len())
            }
            Err(error) => {
                self.wants = raised(self.wants);
                Err(Refusal::Memory(error))
            }
        }
    }

    fn finish(&mut self) -> Result<(), Refusal> {
        self.is_unfinished = false;
        Ok(())
    }
}
