//! Merge lattices, as in Kjolstad and others, "The Tensor Algebra Compiler" (OOPSLA 2017), section 5: for a loop over a variable, what
//! is left of an expression at each set of operands that may be present, and which of them are then gone through together.
//! `specs/Lattices.antt` says when a lattice is complete.
#![tactic(auto)]

mod iterators;
mod lattices;
mod parts;

pub use iterators::is_iterator;
pub use lattices::{MergeLattice, Point, lattice};
pub use parts::part;
