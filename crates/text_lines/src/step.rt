/// What a call of a `LineReader` came to.
#[derive(Clone, Copy, Debug, PartialEq, Eq)]
pub enum Step {
    /// The next line stands in `line`.
    Line,
    /// The piece is used up within a line. At the text's end nothing is left.
    NeedMore,
    /// A line is longer than a line may be. Every later call says so too.
    LongLine,
}
