// Where bytes go.
ghost use Rattle.std.specs.Prelude.{IfOk, IfErr, OnOk};
ghost use Rattle.outside.specs.Sink.{SinkState, Takes, Finishes, Refuses};

use crate::refusal::Refusal;

/// Takes bytes in pieces.
pub trait Sink {
    /// What contracts see of it.
    ghost state: { Self → SinkState };

    /// Appends the first n bytes of the piece, at least one of a piece that isn't empty, and answers n.
    /// A refused call appends nothing.
    fn write(&mut self, piece: &[u8]) -> Result<usize, Refusal>
        ensures taken { IfOk result (Takes (state self.old) (state self.new) piece.now) }
        ensures refused { IfErr result (Refuses (state self.old) (state self.new)) };

    /// Hands on what may be kept back. The text stays whole, also where the call is refused.
    fn finish(&mut self) -> Result<(), Refusal>
        ensures finished { OnOk result (Finishes (state self.old) (state self.new)) }
        ensures refused { IfErr result (Refuses (state self.old) (state self.new)) };
}
