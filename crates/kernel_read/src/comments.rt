// Comments in front of a kernel.
ghost use Rattle.std.specs.Prelude.{◌≤◌, length, take, drop, MatchOption};
ghost use Rattle.kernel_read.specs.Kernels.{AreComments, HasNoComment, IsComment};

use crate::feeds::first_line;
use crate::marks::{behind, rest_at};

/// How many bytes the comment has with which a text begins, with its line feed, if it begins with one.
fn comment(text: &[u8]) -> Option<usize>
    ensures { MatchOption result (HasNoComment text.now) (λ count. (count ≤ length text.now) × IsComment (take count text.now)) }
{
    behind(text, 0, b"//")?;
    first_line(text)
}

/// Where a text goes on behind the comments in front, and how many lines these are.
pub(crate) fn behind_comments(text: &[u8]) -> (usize, u64)
    ensures within { result.0 ≤ length text.now }
    ensures comments { AreComments result.1 (take result.0 text.now) }
    ensures all { HasNoComment (drop result.0 text.now) }
    ensures few { result.1 ≤ result.0 }
{
    let mut at = 0;
    let mut lines = 0;
    while let Some(count) = comment(rest_at(text, at)) {
        at += count;
        lines += 1;
    }
    (at, lines)
}
