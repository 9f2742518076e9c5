//! How a run ends.
ghost use Rattle.std.specs.Prelude.{◌≡◌};
ghost use Rattle.kernel_interpreter.specs.Store.{has_ended};

use kernel_code::Arr;

/// How a run ends.
#[derive(Clone, Copy, Debug, PartialEq, Eq, Drop)]
pub enum Ending {
    /// The code has run to its end.
    Ended,
    /// An index isn't below its array's length, a variable has no value, an array doesn't exist or mayn't
    /// be written, a width has no word, rows have columns of different lengths, or a workspace has no
    /// number of keys. The statement is counted from 1 in the order in which those of the code that is run begin; a number stays
    /// at the last word.
    Stuck { statement: u64 },
    /// An array would have grown past its limit, to this count: of words, or of positions, which are one fewer
    /// than the segment ends. A count may be no word.
    Over { array: Arr, count: u128 },
    /// A loop would have gone on with no turn left.
    More,
}

/// How a statement ends, in one byte: each statement of a loop answers one. The machine keeps what else is to be told.
#[derive(Clone, Copy, Debug, PartialEq, Eq, Drop)]
pub(crate) enum Step {
    Ended,
    /// The statement itself can't go on.
    Stuck,
    /// A statement inside can't go on; the machine keeps its number.
    StuckInside,
    /// A growth was refused; the machine keeps the array and the count.
    Over,
    More,
    /// Memory is wanted.
    Memory,
}

impl Step {
    #[inline(always)]
    pub(crate) fn has_ended(self) -> bool
        ensures { result ≡ has_ended self }
    {
        matches!(self, Step::Ended)
    }
}

/// The growth that was refused last.
#[derive(Clone, Copy, Debug, Drop)]
pub(crate) struct Refused {
    pub(crate) array: Arr,
    pub(crate) count: u128,
}
