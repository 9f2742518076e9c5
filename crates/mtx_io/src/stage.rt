ghost use Rattle.std.specs.Prelude.{◌≡◌, ◌+◌};
ghost use Rattle.mtx_io.specs.Progress.{counted};
ghost use Rattle.mtx_io.specs.Reader.{is_bad};
ghost use Rattle.text_lines.specs.declared.line_kind.LineKind.TheVariants.{LongLine};
ghost use Rattle.mtx_io.specs.declared.stage.Stage.TheVariants.{Bad};

use crate::banner::Banner;
use crate::due::EntryLines;
use text_lines::LineKind;

/// How far a file was read.
#[derive(Drop)]
pub(crate) enum Stage {
    /// The next line is the first.
    First,
    /// The banner was read, and the size line is due.
    Begun(Banner),
    /// The size line was read: these entry lines are still due.
    Sized(EntryLines),
    /// The line of this number was bad.
    Bad { line: u64, kind: LineKind },
}

impl Stage {
    /// Whether a line was bad.
    pub(crate) fn is_bad(&self) -> bool
        ensures { result ≡ is_bad self.now }
    {
        matches!(self, Stage::Bad { .. })
    }
}

/// The line of this number is bad.
#[inline(always)]
pub(crate) fn bad_line(line: u64, kind: LineKind) -> Stage
    ensures { result ≡ Bad line kind }
{
    Stage::Bad { line, kind }
}

/// The line behind so many others is too long.
pub(crate) fn long_line_behind(count: u64) -> Stage
    ensures { result ≡ Bad (counted (count + 1)) LongLine }
{
    Stage::Bad {
        line: count.saturating_add(1),
        kind: LineKind::LongLine,
    }
}
