//! A file, line by line. No line that comes here is too long.
ghost use Rattle.std.specs.Prelude.{◌≡◌, ◌<◌, ◌++◌, ◌∷◌, ℕ, Bool, List, length, [], true, false, IfOk, OnErr};
ghost use Rattle.mtx_io.specs.Matrix.{is_skipped};
ghost use Rattle.text_lines.specs.Cutting.{is_long};
ghost use Rattle.mtx_io.specs.Progress.{Follows, IsStage, IsMatrixOrder};
ghost use Rattle.mtx_io.specs.Reader.{IsKnown, TellsEntry};
ghost use Rattle.mtx_io.specs.declared.stage.Stage.TheVariants.{First, Begun, Sized};

use crate::banner::{Banner, read_first_line};
use crate::due::EntryLines;
use crate::entry::push_entries;
use crate::stage::Stage;
use numbers::Semiring;
use std::alloc::AllocError;
use tensor_map::Entries;
use text_lines::{LineKind, cut_token};

/// Whether a line behind the banner is a comment or has no token.
fn is_passed_over(line: &[u8]) -> bool
    requires { is_long line.now ≡ false }
    ensures { result ≡ is_skipped line.now }
{
    match line {
        [b'%', ..] => true,
        [b'0'..=b'9', ..] => false,
        _ => cut_token(line).is_none(),
    }
}

/// How far the file is read with its first line.
fn after_first<S: Semiring>(line: &[u8], number: u64) -> Stage
    requires { is_long line.now ≡ false }
    ensures stage { (order : ℕ) → IsStage S.has_minus order [] result }
    ensures follows { (order : ℕ) → Follows S.arithmetic S.has_minus S.is_signed order number line.now [] First [] result }
    ensures known { (taken : List (List ℕ)) → IsKnown result (taken ++ line.now ∷ []) }
{
    match read_first_line::<S>(line) {
        Ok(banner) => Stage::Begun(banner),
        Err(kind) => Stage::Bad { line: number, kind },
    }
}

/// How far the file is read with its size line.
fn after_size<S: Semiring>(order: usize, banner: Banner, line: &[u8], number: u64) -> Stage
    requires short { is_long line.now ≡ false }
    requires kept { is_skipped line.now ≡ false }
    ensures stage { (has_minus : Bool) → IsStage has_minus order [] (Begun banner) → IsStage has_minus order [] result }
    ensures follows { (has_minus : Bool) → Follows S.arithmetic has_minus S.is_signed order number line.now [] (Begun banner) [] result }
    ensures known { (taken : List (List ℕ)) → 0 < length taken → IsKnown result (taken ++ line.now ∷ []) }
{
    match EntryLines::read(order, banner, S::one(), line) {
        Some(lines) => Stage::Sized(lines),
        None => Stage::Bad {
            line: number,
            kind: LineKind::BadSize,
        },
    }
}

/// How far the file is read with one more entry line, whose entries are appended.
fn after_entry<S: Semiring>(
    lines: EntryLines,
    entries: &mut Entries,
    line: &[u8],
    number: u64,
) -> Result<Stage, AllocError>
    requires short { is_long line.now ≡ false }
    requires kept { is_skipped line.now ≡ false }
    requires order { IsMatrixOrder entries.old.order }
    requires stage { IsStage S.has_minus entries.old.order entries.old.list (Sized lines) }
    ensures order { entries.new.order ≡ entries.old.order }
    ensures stage { IfOk result (λ stage. IsStage S.has_minus entries.old.order entries.new.list stage) }
    ensures follows { IfOk result
        (λ stage. Follows S.arithmetic S.has_minus S.is_signed entries.old.order number line.now entries.old.list
        (Sized lines) entries.new.list
        stage) }
    ensures known { IfOk result (λ stage. (taken : List (List ℕ)) → IsKnown (Sized lines) taken → IsKnown stage (taken ++ line.now ∷ [])) }
    ensures tells { OnErr result (TellsEntry S.is_signed (Sized lines) line.now) }
{
    let mut lines = lines;
    match lines.take(line, S::is_signed()) {
        Ok(told) => {
            push_entries::<S>(entries, lines.header().symmetry, told)?;
            Ok(Stage::Sized(lines))
        }
        Err(kind) => Ok(Stage::Bad { line: number, kind }),
    }
}

/// How far the file is read with one more line, whose entries are appended. It wants memory only for an entry line.
pub(crate) fn after_line<S: Semiring>(
    stage: Stage,
    entries: &mut Entries,
    line: &[u8],
    number: u64,
) -> Result<Stage, AllocError>
    requires short { is_long line.now ≡ false }
    requires order { IsMatrixOrder entries.old.order }
    requires stage { IsStage S.has_minus entries.old.order entries.old.list stage }
    ensures order { entries.new.order ≡ entries.old.order }
    ensures stage { IfOk result (λ after. IsStage S.has_minus entries.old.order entries.new.list after) }
    ensures follows { IfOk result
        (λ after. Follows S.arithmetic S.has_minus S.is_signed entries.old.order number line.now entries.old.list stage entries.new.list
        after) }
    ensures known { IfOk result (λ after. (taken : List (List ℕ)) → IsKnown stage taken → IsKnown after (taken ++ line.now ∷ [])) }
    ensures tells { OnErr result (TellsEntry S.is_signed stage line.now) }
    ensures kept { OnErr result (is_skipped line.now ≡ false) }
{
    match stage {
        Stage::First => Ok(after_first::<S>(line, number)),
        Stage::Begun(banner) if is_passed_over(line) => Ok(Stage::Begun(banner)),
        Stage::Begun(banner) => Ok(after_size::<S>(entries.order(), banner, line, number)),
        Stage::Sized(lines) if is_passed_over(line) => Ok(Stage::Sized(lines)),
        Stage::Sized(lines) => after_entry::<S>(lines, entries, line, number),
        Stage::Bad { line, kind } => Ok(Stage::Bad { line, kind }),
    }
}
