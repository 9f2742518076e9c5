//! What the machine that runs kernels is made of: tables that are looked up in constant time, places of arrays by name, arrays that
//! grow, operators whose first operand decides or whose operands are values, and the sorting of rows. `specs/ArrayPlaces.antt` says what a
//! table holds, `specs/Rows.antt` which rows are sorted.
#![tactic(auto)]

mod array_places;
mod operators;
mod rows;
mod sums;
mod tables;
mod words;

pub use array_places::ArrayPlaces;
pub use operators::{combine_operands, decided_by_first};
pub use rows::{ScratchRow, coordinates_of, positions_of, rows_of_list, sort_rows};
pub use sums::{PlacedRow, number_of_keys, sum_rows, values_of, words_at};
pub use tables::{PairTable, Table};
pub use words::{
    OwnArray, append_copies, append_word, count_told, is_same, may_be_written, may_grow,
    sum_of_words,
};
