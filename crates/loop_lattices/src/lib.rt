//! Which parts of an expression remain, as the code of loops asks it while it runs, by the merge lattice of the expression, which is made
//! without a look at what is stored.
#![tactic(auto)]

mod laws;

pub use laws::{
    parts_remain_by_points, sought_ones_have_others, whole_ranges_are_full, whole_ranges_are_points,
};
