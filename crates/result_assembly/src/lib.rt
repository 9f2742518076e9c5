//! The levels of a kernel's result, filled from the sorted rows of a workspace, one below another. `specs/Drained.antt` says what arrays
//! hold after each level.
#![tactic(auto)]

mod drains;
mod last;
mod levels;
mod tests_of_rows;
mod values;

pub use drains::drain_levels;
pub use last::fill_last;
pub use levels::drain_level;
pub use tests_of_rows::begins_by_keys;
pub use values::drain_result;
