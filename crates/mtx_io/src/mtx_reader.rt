// Reads a Matrix Market file in pieces.
use crate::file_fault::FileFault;
use crate::finish::answer_at_end;
use crate::pieces::{take_end, take_piece};
use crate::stage::Stage;
use numbers::Semiring;
use outside::Eater;
use std::alloc::{AllocError, Global};
use std::marker::{Model, PhantomData};
use std::mem;
use tensor_map::Entries;
use text_lines::{Fed, LineReader};

/// Reads the text of a Matrix Market file, in whatever pieces it comes, as the entries of a tensor of order 1 or 2. It keeps
/// the entries and one line, and no text. Values are negated as `S` says, and below 0 where `S` has a sign alone.
///
/// The first bad line is kept and told by `finish`; what follows it is passed over. After want of memory every call says so.
#[derive(Drop)]
pub struct MtxReader<S: Semiring> {
    lines: LineReader,
    entries: Entries,
    stage: Stage,
    wants: bool,
    fed: Fed,
    semiring: PhantomData<S>,
}

impl<S: Semiring> Model for MtxReader<S> {
    ghost use Rattle.mtx_io.specs.MtxReader.{MtxReader as Reading};
    ghost use Rattle.mtx_io.specs.Reader.{IsReading};

    ghost Value = { Reading };

    ghost view = { λ r. record { order = r.entries.order; text = r.fed.bytes; wants = r.wants } };

    ghost invariant = { λ r. IsReading S.arithmetic S.has_minus S.is_signed r.entries r.fed.bytes r.lines r.stage r.wants };
}

impl<S: Semiring> MtxReader<S> {
    ghost use Rattle.std.specs.Prelude.{◌≡◌, [], false, IfOk, MatchResult};
    ghost use Rattle.mtx_io.specs.MtxReader.{IsRead, Refuses};
    ghost use Rattle.mtx_io.specs.Progress.{IsMatrixOrder};

    /// A reader that was fed nothing yet, of a tensor of order 1 or 2. It takes the memory of one line.
    #[tactic(auto, unfolding(limits::specs::Limits::greatest_order))]
    pub fn new(alloc: Global, order: usize) -> Result<MtxReader<S>, AllocError>
        requires { IsMatrixOrder order }
        ensures order { IfOk result (λ reader. reader.order ≡ order) }
        ensures empty { IfOk result (λ reader. reader.text ≡ []) }
        ensures calm { IfOk result (λ reader. reader.wants ≡ false) }
    {
        Ok(MtxReader {
            lines: LineReader::new(alloc)?,
            entries: Entries::new(alloc, order)?,
            stage: Stage::First,
            wants: false,
            fed: Fed::new(),
            semiring: PhantomData,
        })
    }

    /// The entries that the file stands for, each before its mirror image, and its numbers of rows and columns; or the
    /// first bad line.
    pub fn finish(self) -> Result<(Entries, u64, u64), FileFault>
        ensures { MatchResult result (IsRead S.arithmetic S.has_minus S.is_signed self)
            (Refuses S.arithmetic S.has_minus S.is_signed self) }
    {
        let MtxReader {
            mut lines,
            mut entries,
            stage,
            wants,
            fed: _,
            semiring: _,
        } = self;
        if wants {
            return Err(FileFault::Memory(AllocError));
        }
        match take_end::<S>(&mut lines, &mut entries, stage) {
            Ok(stage) => answer_at_end(stage, entries, lines.number().saturating_add(1)),
            Err(error) => Err(FileFault::Memory(error)),
        }
    }
}

impl<S: Semiring> Eater for MtxReader<S> {
    ghost use Rattle.std.specs.Prelude.{◌≡◌, ◌++◌, true, false, IsErr, OnOk, OnErr};
    ghost use Rattle.mtx_io.specs.MtxReader.{given_to, WantsMemory};

    ghost eaten = { given_to };

    ghost refused = { WantsMemory S.arithmetic S.has_minus S.is_signed };

    /// Takes a piece. Memory is wanted for an entry alone, and once it was, at every later call.
    fn feed(&mut self, piece: &[u8]) -> Result<(), AllocError>
        ensures ok { OnOk result (given_to self.new ≡ given_to self.old ++ piece.now) }
        ensures err { OnErr result (WantsMemory S.arithmetic S.has_minus S.is_signed self.old piece.now self.new) }
        ensures calm { OnOk result (self.new.wants ≡ false) }
        ensures stuck { self.old.wants ≡ true → IsErr result }
    {
        self.fed.extend(piece);
        if self.wants {
            return Err(AllocError);
        }
        let stage = mem::replace(&mut self.stage, Stage::First);
        match take_piece::<S>(&mut self.lines, &mut self.entries, stage, piece) {
            Ok(stage) => {
                self.stage = stage;
                Ok(())
            }
            Err(error) => {
                self.wants = true;
                Err(error)
            }
        }
    }
}
