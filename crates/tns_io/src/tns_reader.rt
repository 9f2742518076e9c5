// Reads `.tns` files piece by piece.
ghost use Rattle.std.specs.Prelude.{◌≡◌, ◌+◌, ◌++◌, false, true, length, min, IfErr, OnOk, MatchResult};
ghost use Rattle.tns_io.specs.ReadSoFar.{IsReadSoFar, FailsPiece, is_want};
ghost use Rattle.tns_io.specs.TnsReader.{IsRead, Refuses, read_to};

use crate::entry_lines::{GREATEST_ORDER, take_line, take_read_line};
use crate::file_fault::FileFault;
use numbers::Semiring;
use outside::Eater;
use std::alloc::{AllocError, Global};
use std::marker::{Model, PhantomData};
use tensor_map::Entries;
use text_lines::{Fed, LineKind, LineReader, Step};

/// Reads the entries of a `.tns` file that is fed to it piece by piece, for a tensor of an order. It keeps the entries,
/// and one line at most: no more of the text. Behind the first bad line it passes over what it is fed. Values are below 0 where
/// `S` has a sign alone.
#[derive(Drop)]
pub struct TnsReader<S: Semiring> {
    lines: LineReader,
    entries: Entries,
    fault: Option<FileFault>,
    fed: Fed,
    semiring: PhantomData<S>,
}

impl<S: Semiring> Model for TnsReader<S> {
    ghost use Rattle.tns_io.specs.TnsReader.{TnsReader as Reader};

    ghost Value = { Reader };

    ghost use Rattle.tns_io.specs.ReadSoFar.{is_want};
    ghost use Rattle.tns_io.specs.ReaderState.{IsKnown};

    ghost view = { λ r. record { order = r.entries.order; text = r.fed.bytes; wants = is_want r.fault } };

    ghost invariant = { λ r. IsKnown S.is_signed r.fault r.entries.order r.fed.bytes r.lines.text r.entries.list };
}

impl<S: Semiring> TnsReader<S> {
    ghost use Rattle.std.specs.Prelude.{◌≡◌, ◌≤◌, [], false, IfErr, IfOk, MatchResult};
    ghost use Rattle.limits.specs.Limits.{greatest_order};
    ghost use Rattle.tns_io.specs.TnsReader.{IsRead, IsOfEntries, Refuses};

    /// A reader that was fed nothing yet, for a tensor of this order.
    pub fn new(alloc: Global, order: usize) -> Result<TnsReader<S>, AllocError>
        requires { order ≤ greatest_order }
        ensures order { IfOk result (λ reader. reader.order ≡ order) }
        ensures empty { IfOk result (λ reader. reader.text ≡ []) }
        ensures calm { IfOk result (λ reader. reader.wants ≡ false) }
    {
        Ok(TnsReader {
            lines: LineReader::new(alloc)?,
            entries: Entries::new(alloc, order)?,
            fault: None,
            fed: Fed::new(),
            semiring: PhantomData,
        })
    }

    /// The text has ended: its entries, as they stand in it, or its first bad line. Memory is wanted for an entry on a
    /// last line without an end, or was wanted before.
    pub fn finish(self) -> Result<Entries, FileFault>
        ensures told { MatchResult result (IsRead S.is_signed self) (Refuses S.is_signed self) }
        ensures kinds { IfErr result IsOfEntries }
    {
        let TnsReader {
            lines,
            entries,
            fault,
            fed: _,
            semiring: _,
        } = self;
        match fault {
            Some(fault) => Err(fault),
            None => finish_lines(lines, S::is_signed(), entries),
        }
    }
}

/// It is told as it is given a file: the order, and then the bytes.
impl<S: Semiring> Eater for TnsReader<S> {
    ghost use Rattle.std.specs.Prelude.{◌≡◌, ◌++◌, true, false, IsErr, OnOk, OnErr};
    ghost use Rattle.tns_io.specs.TnsReader.{given_to, WantsMemory};

    ghost eaten = { given_to };

    ghost refused = { WantsMemory S.is_signed };

    /// Reads the lines that end in the piece. Memory is wanted for an entry alone, and once it was, at every later call.
    fn feed(&mut self, piece: &[u8]) -> Result<(), AllocError>
        ensures ok { OnOk result (given_to self.new ≡ given_to self.old ++ piece.now) }
        ensures err { OnErr result (WantsMemory S.is_signed self.old piece.now self.new) }
        ensures calm { OnOk result (self.new.wants ≡ false) }
        ensures stuck { self.old.wants ≡ true → IsErr result }
    {
        self.fed.extend(piece);
        if self.fault.is_none() {
            self.fault = read_lines(
                &mut self.lines,
                S::is_signed(),
                &mut self.entries,
                piece,
            ).err();
        }
        answer(self.fault)
    }
}

/// What a feed answers at a fault.
fn answer(fault: Option<FileFault>) -> Result<(), AllocError>
    ensures { MatchResult result (λ _. is_want fault ≡ false) (λ _. is_want fault ≡ true) }
{
    match fault {
        Some(FileFault::Memory(error)) => Err(error),
        _ => Ok(()),
    }
}

/// Reads the lines that end in a piece. A matrix's are read by code of their own, whose numbers are two wherever they are gone through.
/// This is a function apart, so that what its callers keep takes none of its registers.
#[inline(never)]
#[tactic(auto, unfolding(limits::specs::Limits::greatest_order))]
fn read_lines(
    lines: &mut LineReader,
    signed: bool,
    entries: &mut Entries,
    piece: &[u8],
) -> Result<(), FileFault>
    requires { IsReadSoFar signed entries.old.order lines.old.text entries.old.list }
    ensures order { entries.new.order ≡ entries.old.order }
    ensures text { OnOk result (lines.new.text ≡ lines.old.text ++ piece.now) }
    ensures read { OnOk result (IsReadSoFar signed entries.new.order lines.new.text entries.new.list) }
    ensures fails { IfErr result (FailsPiece signed entries.old.order lines.old.text piece.now) }
{
    let order = entries.order();
    if order == 2 {
        return read_lines_with(lines, signed, entries, piece, &mut [0; 2]);
    }
    let mut numbers = [0; GREATEST_ORDER];
    read_lines_with(lines, signed, entries, piece, &mut numbers[..order])
}

/// Reads the lines that end in a piece, each that stands whole in it where it stands, with room for a line's coordinates.
#[inline(always)]
fn read_lines_with(
    lines: &mut LineReader,
    signed: bool,
    entries: &mut Entries,
    piece: &[u8],
    coords: &mut [u64],
) -> Result<(), FileFault>
    requires long { length coords.old ≡ entries.old.order }
    requires read { IsReadSoFar signed entries.old.order lines.old.text entries.old.list }
    ensures order { entries.new.order ≡ entries.old.order }
    ensures text { OnOk result (lines.new.text ≡ lines.old.text ++ piece.now) }
    ensures read { OnOk result (IsReadSoFar signed entries.new.order lines.new.text entries.new.list) }
    ensures fails { IfErr result (FailsPiece signed entries.old.order lines.old.text piece.now) }
{
    let mut rest = piece;
    loop {
        if let Some((taken, line, value)) = lines.take_numbers(rest, coords) {
            match take_read_line(line, value, coords, lines.number(), signed, entries) {
                Ok(()) => rest = rest.split_at(taken).1,
                Err(fault) => return Err(fault),
            }
            continue;
        }
        let (taken, step) = lines.feed(rest);
        match step {
            Step::NeedMore => return Ok(()),
            Step::LongLine => return Err(long_line(lines.number())),
            Step::Line => match take_line(lines.line(), lines.number(), signed, entries) {
                Ok(()) => rest = rest.split_at(taken).1,
                Err(fault) => return Err(fault),
            },
        }
    }
}

/// The fault of the line behind so many, which is too long.
fn long_line(number: u64) -> FileFault
    ensures { result ≡ FileFault.Line (min (number + 1) 18446744073709551615) LineKind.LongLine }
{
    FileFault::Line {
        line: number.saturating_add(1),
        kind: LineKind::LongLine,
    }
}

/// Reads a last line without an end, if there is one.
fn finish_lines(lines: LineReader, signed: bool, entries: Entries) -> Result<Entries, FileFault>
    requires { IsReadSoFar signed entries.order lines.text entries.list }
    ensures { MatchResult result (IsRead signed (read_to entries.order lines.text)) (Refuses signed (read_to entries.order lines.text)) }
{
    let mut lines = lines;
    let mut entries = entries;
    match lines.finish() {
        Step::NeedMore => Ok(entries),
        Step::LongLine => Err(long_line(lines.number())),
        Step::Line => match take_line(lines.line(), lines.number(), signed, &mut entries) {
            Ok(()) => Ok(entries),
            Err(fault) => Err(fault),
        },
    }
}
