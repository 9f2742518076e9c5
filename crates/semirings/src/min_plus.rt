//! The semiring of lengths.
ghost use Rattle.std.specs.Prelude.{codes, false, refl};
ghost use Rattle.numbers.specs.Arithmetic.{on_words};
ghost use Rattle.semirings.specs.MinPlus.{lengths, lengths_are_no_ring, lengths_are_told_apart, length_laws, length_word_laws};
ghost use Rattle.semirings.specs.MinPlus.{minplus_is_named, no_minus_of_lengths};

use numbers::Semiring;

/// Lengths, of which the sum is the lesser one and the product both together, up to 2^64 - 1. That is zero, the length where there is
/// no way; a product that would pass it stays there. One is 0. There is no minus, and a length is written as the number itself.
#[derive(Drop)]
pub struct MinPlus;

impl Semiring for MinPlus {
    ghost of_words = { lengths };

    ghost arithmetic = { on_words lengths };

    ghost has_minus = { false };

    ghost is_ring = { false };

    ghost is_signed = { false };

    ghost name = { codes "minplus" };

    fn name() -> &'static str {
        "minplus"
    }

    fn is_ring() -> bool {
        false
    }

    fn is_signed() -> bool {
        false
    }

    #[tactic(auto, unfolding(crate::specs::MinPlus::lengths))]
    fn zero() -> u64 {
        u64::MAX
    }

    #[tactic(auto, unfolding(crate::specs::MinPlus::lengths))]
    fn one() -> u64 {
        0
    }

    fn minus_one() -> Option<u64> {
        None
    }

    #[tactic(auto, unfolding(crate::specs::MinPlus::lengths), using(crate::specs::MinPlus::plus_of_lengths))]
    fn plus(a: u64, b: u64) -> u64 {
        a.min(b)
    }

    #[tactic(auto, unfolding(crate::specs::MinPlus::lengths), using(crate::specs::MinPlus::times_of_lengths))]
    fn times(a: u64, b: u64) -> u64 {
        a.saturating_add(b)
    }

    ghost ring_is = { lengths_are_told_apart };

    ghost ring_alone = { lengths_are_no_ring };

    ghost is_named = { minplus_is_named };

    ghost word_laws = { length_word_laws };

    ghost arithmetic_is = { refl };

    ghost laws = { length_laws };

    ghost minus_laws = { no_minus_of_lengths };
}
