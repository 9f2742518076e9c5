//! Concrete notation: a statement as a tree of loops. `specs/Contributions.antt` says what such a tree contributes to the
//! result, `specs/Right.antt` when it is right for a statement, and `concretize` makes one.
#![tactic(auto)]

mod concrete;
mod nesting;
mod statement_loops;

pub use concrete::{Concrete, terms_below};
pub use statement_loops::concretize;
