//! Lines of a text, tokens of a line, and the numbers that tokens stand for: `specs/Lines.antt`,
//! `specs/Tokens.antt` and `specs/Numbers.antt` say what they are. Texts are put into sinks whole,
//! or in pieces (`specs/Pieces.antt`).
#![tactic(auto)]

mod cuts;
mod fed;
mod index;
mod line_kind;
mod line_reader;
mod num_fault;
mod pieces;
mod plain;
mod puts;
mod step;
mod whole;

pub use cuts::{cut_line, cut_token, is_blank};
pub use fed::Fed;
pub use index::read_index;
pub use line_kind::LineKind;
pub use line_reader::LineReader;
pub use num_fault::NumFault;
pub use pieces::{Piece, put_pieces};
pub use puts::{put_all, put_i64, put_u64, put_u128};
pub use step::Step;
pub use whole::read_whole;
