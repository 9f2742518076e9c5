//! Reads a statement of index notation from its text: `parse` answers the statement exactly where the text is one
//! within the limits, and the text's fault everywhere else. The text is cut into symbols; a reader with a stack of its
//! own goes over them once, and keeps four views of what it has read: its position in the grammar, the counts that are
//! limited, the accesses, and the expression with its nested sums. Each is tied to the place in the grammar that the
//! symbols lead to, which gives both directions. `laws` claims that a text has one answer.
#![tactic(auto)]

mod accesses;
mod assigning;
mod builder;
mod counts;
mod laws;
mod literals;
mod names;
mod notation;
mod numbering;
mod position;
mod reader;
mod scanner;

pub use laws::one_answer_a_text;
pub use notation::parse;
