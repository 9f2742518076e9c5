use crate::syntax::Name;
use trees::Items;

/// A token that is no name and no number: `=`, `+=`, `+`, `-`, `*`, `(`, `)` or `,`.
#[derive(Clone, Copy, Debug, PartialEq, Eq)]
pub enum Mark {
    Equals,
    PlusEquals,
    Plus,
    Minus,
    Times,
    Open,
    Close,
    Comma,
}

/// A token of a statement's text: a name, the digits of a number, or a mark.
#[derive(Debug, Drop)]
pub enum Token {
    Name(Name),
    Number(Items<u8>),
    Mark(Mark),
}

/// An access as it is written: its name, and the variables in its brackets, of which there are none
/// where it has no brackets.
#[derive(Debug, Drop)]
pub struct WrittenAccess {
    pub name: Name,
    pub vars: Items<Name>,
}
