//! Statements of index notation: one assignment whose right side is made of accesses to tensors, numbers, sums,
//! differences, products, negations and nested sums over variables. Here stand the types, when a statement is well
//! formed, the tokens of which texts are made, and how names are numbered.
#![tactic(auto)]

mod checks;
mod copies;
mod operator;
mod syntax;
mod token;

pub use copies::{copy_names, copy_statement, copy_sums};
pub use operator::Operator;
pub use syntax::{
    Access, Expr, Name, NestedSum, Statement, binary, copy_access, copy_expr, copy_name, copy_sum,
};
pub use token::{Mark, Token, WrittenAccess};
