// How values are added and multiplied: the trait that all computing with values goes through.
ghost use Rattle.std.specs.Prelude.{◌≡◌, ◌≢◌, ℕ, List, Option, Some, None, Bool, true, false, codes, refl};
ghost use Rattle.numbers.specs.Arithmetic.{Arithmetic, WordLaws, Laws, MinusLaws, IfMinus, on_words};
ghost use Rattle.numbers.specs.Names.{IsName, ring_is_named};
ghost use Rattle.numbers.specs.Ring.{ring};
ghost use Rattle.numbers.specs.RingLaws.{ring_laws, ring_minus_laws, ring_word_laws, ring_on_words, true_is_not_false};

/// Words with a sum and a product that keep the laws of a commutative semiring. Its calls are of the type: no
/// value of it is needed.
pub trait Semiring {
    /// What the calls compute of words.
    ghost of_words: { Arithmetic };

    /// The same of every number, each taken by its remainder of 2^64: what definitions add and multiply by.
    ghost arithmetic: { Arithmetic };

    /// Whether there is a minus: a number that makes zero with one.
    ghost has_minus: { Bool };

    /// Whether these are the whole numbers modulo 2^64.
    ghost is_ring: { Bool };

    /// Whether a value is written as a signed number; else it is written as the word itself.
    ghost is_signed: { Bool };

    /// The letters of the name.
    ghost name: { List ℕ };

    /// The semiring's name, in small letters, as a kernel's text and a command line have it.
    fn name() -> &'static str
        ensures { result.now ≡ name };

    /// Whether these are the whole numbers modulo 2^64: code adds and multiplies them as it does words.
    fn is_ring() -> bool
        ensures { result ≡ is_ring };

    /// Whether a value is written as a signed number: itself below 2^63, and 2^64 less from there on.
    fn is_signed() -> bool
        ensures { result ≡ is_signed };

    /// The word that a sum starts from.
    fn zero() -> u64
        ensures { result ≡ arithmetic.zero };

    /// The word that a product starts from.
    fn one() -> u64
        ensures { result ≡ arithmetic.one };

    /// The word by which a negated term is multiplied. There is none exactly where there is no minus.
    fn minus_one() -> Option<u64>
        ensures { result ≡ IfMinus has_minus arithmetic.minus_one };

    /// The sum of two values.
    fn plus(a: u64, b: u64) -> u64
        ensures { result ≡ arithmetic.plus a b };

    /// The product of two values.
    fn times(a: u64, b: u64) -> u64
        ensures { result ≡ arithmetic.times a b };

    /// What is told to be the ring is the ring.
    ghost ring_is: { is_ring ≡ true → arithmetic ≡ ring };

    /// Nothing else is.
    ghost ring_alone: { is_ring ≡ false → arithmetic ≢ ring };

    /// A name has letters, and nothing else.
    ghost is_named: { IsName name };

    /// Sums and products of words keep the laws.
    ghost word_laws: { WordLaws of_words };

    /// Definitions add and multiply words as the calls do.
    ghost arithmetic_is: { on_words of_words ≡ arithmetic };

    /// So sums and products keep the laws, told of every number: `laws_on_words` proves it.
    ghost laws: { Laws arithmetic };

    /// Where there is a minus, one and minus one cancel.
    ghost minus_laws: { has_minus ≡ true → MinusLaws arithmetic };
}

/// Whole numbers modulo 2^64.
#[derive(Drop)]
pub struct Ring;

impl Semiring for Ring {
    ghost of_words = { ring };

    ghost arithmetic = { ring };

    ghost has_minus = { true };

    ghost is_ring = { true };

    ghost is_signed = { true };

    ghost name = { codes "ring" };

    fn name() -> &'static str {
        "ring"
    }

    fn is_ring() -> bool {
        true
    }

    fn is_signed() -> bool {
        true
    }

    fn zero() -> u64 {
        crate::zero()
    }

    fn one() -> u64 {
        crate::one()
    }

    #[tactic(auto, unfolding(crate::specs::Ring::ring))]
    fn minus_one() -> Option<u64> {
        Some(u64::MAX)
    }

    fn plus(a: u64, b: u64) -> u64 {
        crate::add(a, b)
    }

    fn times(a: u64, b: u64) -> u64 {
        crate::mul(a, b)
    }

    ghost ring_is = { λ _. refl };

    ghost ring_alone = { true_is_not_false };

    ghost is_named = { ring_is_named };

    ghost word_laws = { ring_word_laws };

    ghost arithmetic_is = { ring_on_words };

    ghost laws = { ring_laws };

    ghost minus_laws = { λ _. ring_minus_laws };
}
