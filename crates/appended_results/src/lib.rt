//! Results of kernels that are appended in place: rows whose heads come in order are appended to all levels of a result, and their values
//! added at their positions, where loops come by. `specs/Levels.antt` says what arrays and variables have after each row.
#![tactic(auto)]

mod ends;
mod heads;
mod keys;
mod levels;
mod sink;
mod starts;
mod values;

pub use ends::end_levels;
pub use heads::{append_head, append_levels, open_head};
pub use keys::{begins, differs_or_first};
pub use levels::{LevelSite, append_to_level};
pub use sink::AppendedSink;
pub use starts::begin_levels;
pub use values::add_value;
