//! Reads the text of a kernel: expressions, statements, lines and whole kernels, exactly where their texts stand. `specs/Kernels.antt`
//! says which kernels may be read and at which line a text is none of them, and `specs/Answers.antt` what is answered;
//! `specs/Reading.antt` what a reader answers at a place of a line, `specs/Statements.antt` and `specs/Lines.antt` which statements and
//! lines there are, `specs/Blocks.antt` and `specs/Drafts.antt` what was read of a kernel, and `specs/Brackets.antt` how many brackets are
//! open.
#![tactic(auto)]

mod arrays;
mod blocks;
mod brackets;
mod closings;
mod comments;
mod digits;
mod drafts;
mod exprs;
mod fault;
mod feeds;
mod heads;
mod kernels;
mod laws;
mod lines;
mod marks;
mod operators;
mod progress;
mod statements;
mod steps;

pub use brackets::open_behind;
pub use exprs::expr_at;
pub use fault::KernelFault;
pub use feeds::first_line;
pub use heads::{is_head, is_list_line, keys_of_line};
pub use kernels::read_kernel;
pub use laws::kernels_are_read_back;
pub use lines::Line;
pub use statements::statement_at;
