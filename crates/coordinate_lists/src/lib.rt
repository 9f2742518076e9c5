//! What compressed and singleton levels share: the lists that they keep, and the code that reads and extends them.
#![tactic(auto)]

mod codes;
mod indices;

pub use codes::{append_code, child_code, coord_code};
pub use indices::{Indices, needs_wide};
