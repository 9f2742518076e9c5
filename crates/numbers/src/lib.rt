//! Words: 64-bit numbers, how values are added and multiplied, and the laws of that. Crates above add
//! and multiply values by the calls of a `Semiring` and reason by the laws of `specs/Arithmetic.antt`
//! alone, never by a remainder or the number 2^64. `Ring` is the instance that the program runs at.
#![tactic(auto)]

ghost use Rattle.std.specs.Prelude.{◌≡◌};
ghost use Rattle.numbers.specs.Ring.{ring};
ghost use Rattle.numbers.specs.Signed.{signed_of, word_of_signed};

mod semiring;

pub use semiring::{Ring, Semiring};

/// The word that a sum of values starts from.
#[tactic(auto, unfolding(crate::specs::Ring::ring))]
pub fn zero() -> u64
    ensures { result ≡ ring.zero }
{
    0
}

/// The word that a product of values starts from.
#[tactic(auto, unfolding(crate::specs::Ring::ring))]
pub fn one() -> u64
    ensures { result ≡ ring.one }
{
    1
}

/// The sum of two values, modulo 2^64.
#[tactic(auto, unfolding(crate::specs::Ring::ring, crate::specs::Ring::word_sum))]
pub fn add(a: u64, b: u64) -> u64
    ensures { result ≡ ring.plus a b }
{
    a.wrapping_add(b)
}

/// The difference of two values, modulo 2^64: the first plus minus one times the second.
#[tactic(auto, unfolding(crate::specs::Ring::word_difference), using(crate::proofs::WordLaws::difference_is_plus))]
pub fn sub(a: u64, b: u64) -> u64
    ensures { result ≡ ring.plus a (ring.times ring.minus_one b) }
{
    a.wrapping_sub(b)
}

/// The product of two values, modulo 2^64.
#[tactic(auto, unfolding(crate::specs::Ring::ring, crate::specs::Ring::word_product))]
pub fn mul(a: u64, b: u64) -> u64
    ensures { result ≡ ring.times a b }
{
    a.wrapping_mul(b)
}

/// A value as a signed number: itself below 2^63, and 2^64 less from there on.
pub fn signed(v: u64) -> i64
    ensures { result ≡ signed_of v }
{
    v.cast_signed()
}

/// The value that a signed number is: itself, or 2^64 more where it is negative.
pub fn unsigned(v: i64) -> u64
    ensures { result ≡ word_of_signed v }
{
    v.cast_unsigned()
}
