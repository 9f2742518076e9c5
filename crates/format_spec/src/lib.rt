//! Storage formats of tensors: which kind of level stores which mode, level by level. `specs/Formats.antt` says which
//! formats there are and `specs/Words.antt` how a word of the command line names one.
#![tactic(auto)]

mod fault;
mod format;
mod modes;
mod reading;
mod rules;
mod text;

pub use fault::FormatFault;
pub use format::{Format, FormatLevel};
pub use reading::parse_format;
pub use text::letter_byte;
