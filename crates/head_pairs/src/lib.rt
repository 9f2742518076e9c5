//! How many pairs of a term and a point at which it is present there are at one head: at the points that have the same coordinates of some
//! variables. As many rows as there are such pairs begin with those coordinates, whatever loops add them.
//! This crate is definitions and laws alone: `specs/Heads.antt`, `proofs/Counted.antt`, `proofs/Orders.antt`.
#![tactic(auto)]
