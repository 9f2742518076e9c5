//! The relation between texts and statements: the symbols of a text, the grammar as the symbols of a syntax tree, the
//! statement of a tree, and the one fault of each text that is none.
#![tactic(auto)]

mod fault;
mod symbol;

pub use fault::{Counted, NotationFault, SymbolFault};
pub use symbol::{PlacedSymbol, Symbol};
