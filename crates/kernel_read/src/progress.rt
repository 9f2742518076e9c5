// How far a kernel's text was read.
ghost use Rattle.std.specs.Prelude.{IfOk};
ghost use Rattle.kernel_read.specs.Lines.{IsLine};

use crate::drafts::Draft;
use crate::heads::semiring_of;
use kernel_code::Kernel;
use std::alloc::{AllocError, Global};

/// How far a kernel's text was read.
#[derive(Debug, Drop)]
pub enum Progress {
    /// Nothing was read.
    Start,
    /// Its first line was, and these of the others.
    Inside(Draft),
    /// All lines were.
    Done(Kernel),
}

impl Progress {
    ghost use Rattle.kernel_read.specs.Drafts.{Follows, ProgressFits};

    /// How far it is read with a line more, or nothing where no kernel's text goes on so. Refused only for want of memory.
    pub(crate) fn next(self, alloc: Global, line: &[u8]) -> Result<Option<Progress>, AllocError>
        requires fits { ProgressFits self }
        requires line { IsLine line.now }
        ensures { IfOk result (Follows self line.now) }
    {
        match self {
            Progress::Start => match semiring_of(alloc, line)? {
                Some(semiring) => Ok(Some(Progress::Inside(Draft::new(alloc, semiring)))),
                None => Ok(None),
            },
            Progress::Inside(draft) => draft.with_line(alloc, line),
            Progress::Done(_) => Ok(None),
        }
    }
}
