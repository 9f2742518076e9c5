use expr_terms::Term;
use trees::{Boxed, Items};

/// A level of an access, to be found at a loop: below the positions that the coordinates of the levels above lead to, the
/// one of its own variable.
#[derive(Clone, Copy, Debug, PartialEq, Eq, Drop)]
pub struct Seek {
    /// The number of the access among those of the right side.
    pub access: usize,
    /// The level, of which the top one is number 1.
    pub level: usize,
    /// Whether the level is full: it has each coordinate below its range.
    pub full: bool,
}

/// Loops over the coordinates of variables, and the terms that they add.
#[derive(Debug, Drop)]
pub enum LoopCode {
    /// The variable goes through its range, in increasing order; at each coordinate these levels are found, one after
    /// another, and then the body is done. Coordinates at which no part of the terms below remains need no turn: they
    /// add nothing.
    Loop {
        variable: usize,
        seeks: Items<Seek>,
        body: Boxed<LoopCode>,
    },
    /// One after the other.
    Both(Boxed<LoopCode>, Boxed<LoopCode>),
    /// A term is added where it is present, at the coordinates of the loops around it.
    Add(Term),
    /// The rows that `inside` adds, which have no coordinates, are summed. Then the body is done, in which the access of this number, no
    /// level of which any loop finds, has their sum as its value, and is absent where there is no row.
    Sum {
        sum: usize,
        inside: Boxed<LoopCode>,
        body: Boxed<LoopCode>,
    },
}
