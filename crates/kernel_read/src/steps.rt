// One line of a kernel's text.
ghost use Rattle.std.specs.Prelude.{◌<◌, length, IfOk};
ghost use Rattle.kernel_read.specs.Answers.{EndFinds, StepFinds};
ghost use Rattle.kernel_read.specs.Drafts.{ProgressFits};

use crate::brackets::open_behind;
use crate::feeds::first_line;
use crate::progress::Progress;
use std::alloc::{AllocError, Global};

/// What stands where a text goes on.
#[derive(Debug, Drop)]
pub enum Step {
    /// A line of so many bytes: how far the kernel is read with it, and how many brackets are open behind it.
    Line(Progress, usize, usize),
    /// A line that opens a bracket too many.
    Deep,
    /// A line with which no kernel's text goes on.
    Bad,
}

/// What a line is that has no end, where so many brackets are open.
fn unended(depth: usize, text: &[u8]) -> Step
    ensures { EndFinds depth text.now result }
{
    match open_behind(depth, text) {
        Some(_) => Step::Bad,
        None => Step::Deep,
    }
}

/// What stands in front of a text that isn't empty, where a kernel is read so far and so many brackets are open. Refused only for
/// want of memory.
pub(crate) fn step_in(
    alloc: Global,
    progress: Progress,
    depth: usize,
    text: &[u8],
) -> Result<Step, AllocError>
    requires fits { ProgressFits progress }
    requires some { 0 < length text.now }
    ensures { IfOk result (StepFinds progress depth text.now) }
{
    let Some(count) = first_line(text) else {
        return Ok(unended(depth, text));
    };
    let line = &text[..count];
    let Some(depth) = open_behind(depth, line) else {
        return Ok(Step::Deep);
    };
    match progress.next(alloc, line)? {
        Some(progress) => Ok(Step::Line(progress, depth, count)),
        None => Ok(Step::Bad),
    }
}
