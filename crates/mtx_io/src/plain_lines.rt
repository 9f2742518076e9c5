//! Plainly written entry lines, one behind another: what is due is put together once for all of them.
ghost use Rattle.std.specs.Prelude.{◌≡◌, ◌<◌, ◌≤◌, ◌++◌, ◌∷◌, ℕ, List, length, take, [], false, IfOk, OnErr};
ghost use Rattle.mtx_io.specs.MtxReader.{EndsEntry};
ghost use Rattle.mtx_io.specs.Plain.{IsReadTo, full_due, stage_behind};
ghost use Rattle.mtx_io.specs.Progress.{Follows, IsStage, IsMatrixOrder};
ghost use Rattle.mtx_io.specs.Reader.{IsReadSoFar, TellsEntry};
ghost use Rattle.mtx_io.specs.declared.stage.Stage.TheVariants.{Sized};
ghost use Rattle.text_lines.specs.Cutting.{is_long};
ghost use Rattle.text_lines.specs.Tokens.{tokens};

use crate::due::EntryLines;
use crate::entry::{entry_of_numbers, push_entries};
use crate::header::Header;
use crate::place::{PlainLine, plain_line};
use crate::stage::{Stage, bad_line};
use numbers::Semiring;
use std::alloc::AllocError;
use tensor_map::Entries;
use text_lines::{LineKind, LineReader};

/// Appends the entries that a line tells which was read to numbers, or answers what is wrong with it. So many lines were due.
#[inline(always)]
fn push_plain<S: Semiring>(
    entries: &mut Entries,
    header: &Header,
    _left: u64,
    _line: &[u8],
    plain: PlainLine,
) -> Result<Option<LineKind>, AllocError>
    requires short { is_long _line.now ≡ false }
    requires plain { IsReadTo (tokens _line.now) plain }
    requires some { 0 < _left }
    requires order { IsMatrixOrder entries.old.order }
    requires stage { IsStage S.has_minus entries.old.order entries.old.list (Sized (full_due header.now _left)) }
    ensures order { entries.new.order ≡ entries.old.order }
    ensures follows { IfOk result
        (λ bad. (number : ℕ) → Follows S.arithmetic S.has_minus S.is_signed entries.old.order number _line.now entries.old.list
        (Sized (full_due header.now _left)) entries.new.list
        (stage_behind header.now _left number bad)) }
    ensures tells { OnErr result (TellsEntry S.is_signed (Sized (full_due header.now _left)) _line.now) }
{
    match entry_of_numbers(header, plain, S::is_signed()) {
        Ok(told) => {
            push_entries::<S>(entries, header.symmetry, told)?;
            Ok(None)
        }
        Err(kind) => Ok(Some(kind)),
    }
}

/// Takes plainly written lines of the entries that are due, as many as a piece begins with: how many bytes, and how far the file is
/// read then.
fn take_full_lines<S: Semiring>(
    lines: &mut LineReader,
    entries: &mut Entries,
    header: Header,
    count: u64,
    piece: &[u8],
) -> Result<(usize, Stage), AllocError>
    requires order { IsMatrixOrder entries.old.order }
    requires stage { IsStage S.has_minus entries.old.order entries.old.list (Sized (full_due header count)) }
    ensures order { entries.new.order ≡ entries.old.order }
    ensures stage { IfOk result (λ taken. IsStage S.has_minus entries.old.order entries.new.list taken.1) }
    ensures within { IfOk result (λ taken. taken.0 ≤ length piece.now) }
    ensures read { IfOk result
        (λ taken. (fed : List ℕ)
        → IsReadSoFar S.arithmetic S.has_minus S.is_signed entries.old.order fed lines.old.text entries.old.list
        (Sized (full_due header count))
        → IsReadSoFar S.arithmetic S.has_minus S.is_signed entries.old.order (fed
        ++ take taken.0 piece.now) lines.new.text entries.new.list taken.1) }
    ensures ended { OnErr result
        ((fed : List ℕ) → IsReadSoFar S.arithmetic S.has_minus S.is_signed entries.old.order fed lines.old.text entries.old.list
        (Sized (full_due header count))
        → EndsEntry S.arithmetic S.has_minus S.is_signed entries.old.order fed piece.now) }
{
    let mut numbers = [0; 2];
    let mut left = count;
    let mut rest = piece;
    while left > 0 {
        let Some((n, line, value)) = lines.take_plain(rest, &mut numbers) else {
            return Ok((
                piece.len() - rest.len(),
                Stage::Sized(EntryLines::full(header, left)),
            ));
        };
        let bad = push_plain::<S>(entries, &header, left, line, plain_line(&numbers, value))?;
        rest = rest.split_at(n).1;
        match bad {
            None => left -= 1,
            Some(kind) => return Ok((piece.len() - rest.len(), bad_line(lines.number(), kind))),
        }
    }
    Ok((
        piece.len() - rest.len(),
        Stage::Sized(EntryLines::full(header, left)),
    ))
}

/// Takes plainly written entry lines that a piece begins with, if such are due: how many bytes, and how far the file is read then.
pub(crate) fn take_plain_lines<S: Semiring>(
    lines: &mut LineReader,
    entries: &mut Entries,
    stage: Stage,
    piece: &[u8],
) -> Result<(usize, Stage), AllocError>
    requires order { IsMatrixOrder entries.old.order }
    requires stage { IsStage S.has_minus entries.old.order entries.old.list stage }
    ensures order { entries.new.order ≡ entries.old.order }
    ensures stage { IfOk result (λ taken. IsStage S.has_minus entries.old.order entries.new.list taken.1) }
    ensures within { IfOk result (λ taken. taken.0 ≤ length piece.now) }
    ensures read { IfOk result
        (λ taken. (fed : List ℕ)
        → IsReadSoFar S.arithmetic S.has_minus S.is_signed entries.old.order fed lines.old.text entries.old.list stage
        → IsReadSoFar S.arithmetic S.has_minus S.is_signed entries.old.order (fed
        ++ take taken.0 piece.now) lines.new.text entries.new.list taken.1) }
    ensures ended { OnErr result
        ((fed : List ℕ) → IsReadSoFar S.arithmetic S.has_minus S.is_signed entries.old.order fed lines.old.text entries.old.list stage
        → EndsEntry S.arithmetic S.has_minus S.is_signed entries.old.order fed piece.now) }
{
    match stage {
        Stage::Sized(due) => match due.full_count() {
            Some(count) => take_full_lines::<S>(lines, entries, due.header(), count, piece),
            None => Ok((0, Stage::Sized(due))),
        },
        other => Ok((0, other)),
    }
}
