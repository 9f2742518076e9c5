//! Levels of a kernel's result to which rows are appended in place, one after another, by code that stands in the loops: the steps of one
//! level. A level of any kind that is appended to keeps three variables; a full level, which stores nothing, has its positions counted.
//! `specs/Appended.antt` says what arrays and variables have after each row. All of it is proved over the traits of `level_core` alone.
#![tactic(auto)]

mod positions;
mod site;
mod steps;

pub use positions::count_positions;
pub use site::AppendSite;
pub use steps::{append_row, begin_cursor, end_level, reserve_parents};
