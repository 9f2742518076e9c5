//! The semiring of flags.
ghost use Rattle.std.specs.Prelude.{codes, false, true, refl};
ghost use Rattle.numbers.specs.Arithmetic.{on_words};
ghost use Rattle.semirings.specs.Bits.{bits_is_named, flags, flags_are_no_ring, flags_are_told_apart, flag_laws, flag_word_laws};
ghost use Rattle.semirings.specs.Bits.{no_minus_of_flags};

use numbers::Semiring;

/// Words of 64 flags, of which the sum has the flags of either one and the product those of both. Zero has none, and one, which is
/// 2^64 - 1, has all. There is no minus, and a word is written as a signed number, so one as -1.
#[derive(Drop)]
pub struct Bits;

impl Semiring for Bits {
    ghost of_words = { flags };

    ghost arithmetic = { on_words flags };

    ghost has_minus = { false };

    ghost is_ring = { false };

    ghost is_signed = { true };

    ghost name = { codes "bits" };

    fn name() -> &'static str {
        "bits"
    }

    fn is_ring() -> bool {
        false
    }

    fn is_signed() -> bool {
        true
    }

    #[tactic(auto, unfolding(crate::specs::Bits::flags))]
    fn zero() -> u64 {
        0
    }

    #[tactic(auto, unfolding(crate::specs::Bits::flags))]
    fn one() -> u64 {
        u64::MAX
    }

    fn minus_one() -> Option<u64> {
        None
    }

    #[tactic(auto, unfolding(crate::specs::Bits::flags), using(crate::specs::Bits::plus_of_flags))]
    fn plus(a: u64, b: u64) -> u64 {
        a | b
    }

    #[tactic(auto, unfolding(crate::specs::Bits::flags), using(crate::specs::Bits::times_of_flags))]
    fn times(a: u64, b: u64) -> u64 {
        a & b
    }

    ghost ring_is = { flags_are_told_apart };

    ghost ring_alone = { flags_are_no_ring };

    ghost is_named = { bits_is_named };

    ghost word_laws = { flag_word_laws };

    ghost arithmetic_is = { refl };

    ghost laws = { flag_laws };

    ghost minus_laws = { no_minus_of_flags };
}
