// Where a line of a text ends.
ghost use Rattle.std.specs.Prelude.{◌≤◌, length, take, MatchOption};
ghost use Rattle.kernel_read.specs.Feeds.{HasNoFeed};
ghost use Rattle.kernel_read.specs.Lines.{IsLine};

/// How many bytes the first line of a text has with its line feed, if a line feed stands in the text.
pub fn first_line(text: &[u8]) -> Option<usize>
    ensures { MatchOption result (HasNoFeed text.now) (λ count. (count ≤ length text.now) × IsLine (take count text.now)) }
{
    for (i, byte) in text.iter().enumerate() {
        if *byte == b'\n' {
            return Some(i + 1);
        }
    }
    None
}
