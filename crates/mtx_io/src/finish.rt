//! How the reading of a file ends.
ghost use Rattle.std.specs.Prelude.{◌≡◌, ℕ, Bool, []};
ghost use Rattle.numbers.specs.Arithmetic.{Arithmetic};
ghost use Rattle.mtx_io.specs.Progress.{counted, told, rest_of};
ghost use Rattle.mtx_io.specs.Reader.{Tells};

use crate::file_fault::FileFault;
use crate::stage::Stage;
use tensor_map::Entries;
use text_lines::LineKind;

/// The entries of a file and its numbers of rows and columns.
pub(crate) type Read = Result<(Entries, u64, u64), FileFault>;

/// What a file says of which no line is left. The line behind its last one would have this number.
pub(crate) fn answer_at_end(stage: Stage, entries: Entries, line: u64) -> Read
    ensures { (a : Arithmetic) (has_minus signed : Bool) (number : ℕ) → line ≡ counted number
        → Tells (told (rest_of a has_minus signed entries.order entries.list stage number [])) entries.order result }
{
    match stage {
        Stage::First => Err(FileFault::Line {
            line,
            kind: LineKind::BadBanner,
        }),
        Stage::Sized(due) if due.are_complete() => {
            let header = due.header();
            Ok((entries, header.rows, header.columns))
        }
        Stage::Begun(_) | Stage::Sized(_) => Err(FileFault::Line {
            line,
            kind: LineKind::Truncated,
        }),
        Stage::Bad { line, kind } => Err(FileFault::Line { line, kind }),
    }
}
