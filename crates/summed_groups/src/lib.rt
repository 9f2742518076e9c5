//! Sums of rows that come in groups. Where the rows of one group come before those of another by their first coordinates, the sums of both
//! are the sums of the one and then those of the other; and coordinates that all rows of a group have in front stay in front of its sums.
//! This crate is definitions and laws alone: `specs/Groups.antt`, `proofs/Parts.antt`, `proofs/Prefixed.antt`.
#![tactic(auto)]
