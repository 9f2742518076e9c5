// Standard output and standard error.
ghost use Rattle.std.specs.Prelude.{◌≡◌, None, true};
ghost use Rattle.outside.specs.Sink.{alone};

use crate::count::raised;
use crate::refusal::Refusal;
use crate::sink::Sink;
use std::io::Write;

/// A stream of the system, as `std::io::writer(&rt)` or `rt.stderr()`. Contracts see nothing of what it was given.
#[derive(Drop)]
pub struct StdSink<W: Write + Drop> {
    stream: W,
    is_unfinished: bool,
    faults: u64,
}

impl<W: Write + Drop> StdSink<W> {
    /// A sink over this stream.
    pub fn new(stream: W) -> Self
        ensures unfinished { (⟦<StdSink<W> as Sink>⟧.state result).unfinished ≡ true }
    {
        StdSink {
            stream,
            is_unfinished: true,
            faults: 0,
        }
    }
}

impl<W: Write + Drop> Sink for StdSink<W> {
    ghost state = { λ s. record {
      written = None;
      unfinished = s.is_unfinished;
      faults = s.faults;
      wants = 0;
      beside = alone;
    } };

    fn write(&mut self, piece: &[u8]) -> Result<usize, Refusal> {
        match self.stream.write(piece) {
            Ok(n) if n > 0 || piece.is_empty() => {
                self.is_unfinished = true;
                Ok(n)
            }
            _ => {
                self.faults = raised(self.faults);
                Err(Refusal::Failed)
            }
        }
    }

    fn finish(&mut self) -> Result<(), Refusal> {
        match self.stream.flush() {
            Ok(()) => {
                self.is_unfinished = false;
                Ok(())
            }
            Err(_) => {
                self.faults = raised(self.faults);
                Err(Refusal::Failed)
            }
        }
    }
}
