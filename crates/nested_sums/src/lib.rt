//! Nested sums in a loop order: `inner` tells which of them are inner, so that each can be computed where its free variables are
//! fixed (`specs/Inner.antt`), and `multiply_out` makes of a statement one in which each is. `specs/Pieces.antt` and
//! `specs/Multiplied.antt` say how and what it keeps, with `specs/Support.antt`, and `specs/Bound.antt` of which statements: `check_sums`
//! tells them, and the first sum that is bad elsewhere (`specs/Bad.antt`).
#![tactic(auto)]

mod bad_sums;
mod cutting;
mod inner_sums;
mod meanings;
mod multiplying;
mod opening;
mod units;

pub use bad_sums::check_sums;
pub use inner_sums::inner;
pub use meanings::has_meaning_with_sums;
pub use multiplying::multiply_out;
