//! Semirings beside the ring of words: `MinPlus`, by which a sum of products is the least length of a way, and `Bits`, by which it
//! is a union of flags. `specs/MinPlus.antt` and `specs/Bits.antt` say what they compute, and prove the laws.
#![tactic(auto)]

mod bits;
mod min_plus;

pub use bits::Bits;
pub use min_plus::MinPlus;
