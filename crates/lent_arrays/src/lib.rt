//! The arrays that a kernel only reads, lent by those that have them: the ranges of the variables, those ranges of the result's levels
//! that have arrays, and the levels and values of operands. `specs/Lent.antt` has the words of each by its name. Nothing is copied.
#![tactic(auto)]

mod lent;

pub use lent::{LentArrays, Operand};
