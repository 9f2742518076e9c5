//! The groups of a statement's terms, as they are handed on.
use crate::term::Term;
use trees::Items;

/// Terms with equal own variables.
#[derive(Debug, Drop)]
pub struct Group {
    /// The own variables of each of the terms, in standing order.
    pub vars: Items<usize>,
    /// The terms, in text order.
    pub terms: Items<Term>,
}

/// The groups of a statement, in the order of their first terms.
#[derive(Debug, Drop)]
pub struct Groups {
    pub list: Items<Group>,
}
