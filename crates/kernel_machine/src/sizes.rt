//! Whether the dense levels of a result can be begun.
ghost use Rattle.std.specs.Prelude.{◌≡◌, length, MatchOption};
ghost use Rattle.format_spec.specs.Formats.{letters_of};
ghost use Rattle.kernel_correctness.specs.Stores.{StartsFew};
ghost use Rattle.kernel_machine.specs.Begins.{IsTooLarge};

use format_spec::FormatLevel;
use level_core::positions_at_start;
use limits::greatest_positions;

/// A level with more positions than may be, counted from 1.
#[derive(Clone, Copy, Drop)]
pub(crate) struct TooLarge {
    pub(crate) level: usize,
    pub(crate) count: u128,
}

/// The first dense level below dense levels alone that has too many positions.
#[tactic(auto, using(limits::proofs::Limits::positions_are_small))]
pub(crate) fn first_too_large(format: &[FormatLevel], sizes: &[u64]) -> Option<TooLarge>
    requires { length sizes.now ≡ length format.now }
    ensures { MatchOption result (StartsFew (letters_of format.now) sizes.now 1)
        (λ l. IsTooLarge (letters_of format.now) sizes.now 1 1 l.level l.count) }
{
    let mut parents = 1;
    for number in 0..format.len() {
        let count = positions_at_start(format[number].letter, sizes[number], parents);
        if count > greatest_positions() as u128 {
            let level = number + 1;
            return Some(TooLarge { level, count });
        }
        parents = count as u64;
    }
    None
}
