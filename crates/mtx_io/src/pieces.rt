//! A file, piece by piece.
ghost use Rattle.std.specs.Prelude.{◌≡◌, ℕ, ◌<◌, ◌≤◌, ◌+◌, ◌++◌, ◌∷◌, [], List, false, IfOk, OnErr, length, take};
ghost use Rattle.mtx_io.specs.Matrix.{matrix_of_text};
ghost use Rattle.mtx_io.specs.MtxReader.{EndsEntry};
ghost use Rattle.mtx_io.specs.Progress.{told, rest_of, IsStage, IsMatrixOrder};
ghost use Rattle.text_lines.specs.Cutting.{told_lines};
ghost use Rattle.mtx_io.specs.Reader.{IsReadSoFar, is_bad};

use crate::plain_lines::take_plain_lines;
use crate::stage::{Stage, long_line_behind};
use crate::step::after_line;
use numbers::Semiring;
use std::alloc::AllocError;
use tensor_map::Entries;
use text_lines::{LineReader, Step};

/// Takes bytes of a piece, to the end of a line or all of them: how many, and how far the file is read then. A line that stands whole in
/// it is read where it stands.
fn take_step<S: Semiring>(
    lines: &mut LineReader,
    entries: &mut Entries,
    stage: Stage,
    piece: &[u8],
) -> Result<(usize, Stage), AllocError>
    requires order { IsMatrixOrder entries.old.order }
    requires stage { IsStage S.has_minus entries.old.order entries.old.list stage }
    requires good { is_bad stage ≡ false }
    requires some { 0 < length piece.now }
    ensures order { entries.new.order ≡ entries.old.order }
    ensures stage { IfOk result (λ taken. IsStage S.has_minus entries.old.order entries.new.list taken.1) }
    ensures within { IfOk result (λ taken. taken.0 ≤ length piece.now) }
    ensures progress { IfOk result (λ taken. 0 < taken.0) }
    ensures read { IfOk result
        (λ taken. (fed : List ℕ)
        → IsReadSoFar S.arithmetic S.has_minus S.is_signed entries.old.order fed lines.old.text entries.old.list stage
        → IsReadSoFar S.arithmetic S.has_minus S.is_signed entries.old.order (fed
        ++ take taken.0 piece.now) lines.new.text entries.new.list taken.1) }
    ensures ended { OnErr result
        ((fed : List ℕ) → IsReadSoFar S.arithmetic S.has_minus S.is_signed entries.old.order fed lines.old.text entries.old.list stage
        → EndsEntry S.arithmetic S.has_minus S.is_signed entries.old.order fed piece.now) }
{
    if let Some((n, line)) = lines.take_whole(piece) {
        let number = lines.number();
        let after = after_line::<S>(stage, entries, line, number)?;
        return Ok((n, after));
    }
    let (n, step) = lines.feed(piece);
    match step {
        Step::NeedMore => Ok((n, stage)),
        Step::LongLine => Ok((n, long_line_behind(lines.number()))),
        Step::Line => {
            let number = lines.number();
            let after = after_line::<S>(stage, entries, lines.line(), number)?;
            Ok((n, after))
        }
    }
}

/// Takes bytes of a piece as `take_step` does, and behind them the plainly written entry lines that follow.
fn take_more<S: Semiring>(
    lines: &mut LineReader,
    entries: &mut Entries,
    stage: Stage,
    piece: &[u8],
) -> Result<(usize, Stage), AllocError>
    requires order { IsMatrixOrder entries.old.order }
    requires stage { IsStage S.has_minus entries.old.order entries.old.list stage }
    requires good { is_bad stage ≡ false }
    requires some { 0 < length piece.now }
    ensures order { entries.new.order ≡ entries.old.order }
    ensures stage { IfOk result (λ taken. IsStage S.has_minus entries.old.order entries.new.list taken.1) }
    ensures within { IfOk result (λ taken. taken.0 ≤ length piece.now) }
    ensures progress { IfOk result (λ taken. 0 < taken.0) }
    ensures read { IfOk result
        (λ taken. (fed : List ℕ)
        → IsReadSoFar S.arithmetic S.has_minus S.is_signed entries.old.order fed lines.old.text entries.old.list stage
        → IsReadSoFar S.arithmetic S.has_minus S.is_signed entries.old.order (fed
        ++ take taken.0 piece.now) lines.new.text entries.new.list taken.1) }
    ensures ended { OnErr result
        ((fed : List ℕ) → IsReadSoFar S.arithmetic S.has_minus S.is_signed entries.old.order fed lines.old.text entries.old.list stage
        → EndsEntry S.arithmetic S.has_minus S.is_signed entries.old.order fed piece.now) }
{
    let (n, after) = take_step::<S>(lines, entries, stage, piece)?;
    let (behind, last) = take_plain_lines::<S>(lines, entries, after, piece.split_at(n).1)?;
    Ok((n + behind, last))
}

/// Takes a piece, and answers how far the file is read then. Behind a bad line it takes nothing.
pub(crate) fn take_piece<S: Semiring>(
    lines: &mut LineReader,
    entries: &mut Entries,
    stage: Stage,
    piece: &[u8],
) -> Result<Stage, AllocError>
    requires order { IsMatrixOrder entries.old.order }
    requires stage { IsStage S.has_minus entries.old.order entries.old.list stage }
    ensures order { entries.new.order ≡ entries.old.order }
    ensures stage { IfOk result (λ after. IsStage S.has_minus entries.old.order entries.new.list after) }
    ensures read { IfOk result
        (λ after. (fed : List ℕ)
        → IsReadSoFar S.arithmetic S.has_minus S.is_signed entries.old.order fed lines.old.text entries.old.list stage
        → IsReadSoFar S.arithmetic S.has_minus S.is_signed entries.old.order (fed ++ piece.now) lines.new.text entries.new.list after) }
    ensures ended { OnErr result
        ((fed : List ℕ) → IsReadSoFar S.arithmetic S.has_minus S.is_signed entries.old.order fed lines.old.text entries.old.list stage
        → EndsEntry S.arithmetic S.has_minus S.is_signed entries.old.order fed piece.now) }
{
    let mut stage = stage;
    let mut rest = piece;
    while !rest.is_empty() {
        if stage.is_bad() {
            return Ok(stage);
        }
        let (n, after) = take_more::<S>(lines, entries, stage, rest)?;
        rest = rest.split_at(n).1;
        stage = after;
    }
    Ok(stage)
}

/// Takes the last line, if it has no end, and answers how far the file is read then.
pub(crate) fn take_end<S: Semiring>(
    lines: &mut LineReader,
    entries: &mut Entries,
    stage: Stage,
) -> Result<Stage, AllocError>
    requires order { IsMatrixOrder entries.old.order }
    requires stage { IsStage S.has_minus entries.old.order entries.old.list stage }
    ensures order { entries.new.order ≡ entries.old.order }
    ensures read { IfOk result
        (λ after. (fed : List ℕ)
        → IsReadSoFar S.arithmetic S.has_minus S.is_signed entries.old.order fed lines.old.text entries.old.list stage
        → told (matrix_of_text S.arithmetic S.has_minus S.is_signed entries.old.order fed)
        ≡ told (rest_of S.arithmetic S.has_minus S.is_signed entries.old.order entries.new.list after
        (length (told_lines lines.new.text) + 1) [])) }
    ensures ended { OnErr result
        ((fed : List ℕ) → IsReadSoFar S.arithmetic S.has_minus S.is_signed entries.old.order fed lines.old.text entries.old.list stage
        → EndsEntry S.arithmetic S.has_minus S.is_signed entries.old.order fed (10 ∷ [])) }
{
    if stage.is_bad() {
        return Ok(stage);
    }
    match lines.finish() {
        Step::NeedMore => Ok(stage),
        Step::LongLine => Ok(long_line_behind(lines.number())),
        Step::Line => {
            let number = lines.number();
            let after = after_line::<S>(stage, entries, lines.line(), number)?;
            Ok(after)
        }
    }
}
