//! The kernel language: the code that a statement is compiled to, and what it means.
//! `syntax` has the expressions, statements and kernels; `specs/Meaning.antt` says what a run of them
//! does, `specs/Kernels.antt` what a kernel does within so many turns. `specs/Does.antt` and
//! `specs/Keeps.antt` have the rules by which crates above reason about code; `proofs/Lemmas.antt` proves the main ones.
#![tactic(auto)]

mod builders;
mod copies;
mod counts;
mod operators;
mod semirings;
mod syntax;

pub use builders::{binary, one_statement, position_and_next, word_at};
pub use copies::{copy_expr, copy_statement, copy_statements};
pub use counts::count_statements;
pub use operators::{apply_to_words, least_operand, width_of_operand};
pub use syntax::{Arr, KExpr, KStmt, Kernel, KernelSemiring, LoopKind, Op, Place, Turns, ValueOp};
