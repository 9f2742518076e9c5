/// The positions of a level from `lo` on and below `hi`.
#[derive(Clone, Copy, Debug, PartialEq, Eq, Drop)]
pub struct Span {
    pub lo: u64,
    pub hi: u64,
}

/// A coordinate below a parent, and the positions that are its children.
#[derive(Clone, Copy, Debug, PartialEq, Eq, Drop)]
pub struct Entry {
    pub coord: u64,
    pub child: Span,
}
