//! The turns that loops have made.
use kernel_code::Turns;

/// The turns made, of each kind, and how many more may be made.
#[derive(Clone, Copy, Debug, Drop)]
pub(crate) struct KeptTurns {
    pub(crate) counts: Turns,
    pub(crate) left: u64,
}

pub(crate) const NO_TURNS: KeptTurns = KeptTurns {
    counts: Turns {
        merge: 0,
        skip: 0,
        gather: 0,
        drain: 0,
        probe: 0,
    },
    left: 0,
};
