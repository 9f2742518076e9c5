use std::alloc::AllocError;

/// What a text may have too many of.
#[derive(Clone, Copy, Debug, PartialEq, Eq)]
pub enum Counted {
    /// Variables of one access.
    Order,
    /// Different variables of the statement.
    Variables,
    /// Accesses of the right side.
    Accesses,
    /// Accesses and numbers of the right side.
    Operands,
}

/// What is wrong with a symbol of a text.
#[derive(Clone, Copy, Debug, PartialEq, Eq)]
pub enum SymbolFault {
    /// No sentence begins with the symbols up to and including this one.
    BadNotation,
    /// This bracket or prefix minus opens a level too many.
    TooDeep,
    /// This variable, access or number is one too many.
    TooMany(Counted),
    /// This number is too large.
    LiteralRange,
}

/// Why a text is no statement. The byte `at`, from 0, is the first of the first faulty symbol; the end of the text is
/// a symbol at the text's length.
#[derive(Debug, Drop)]
pub enum NotationFault {
    /// The text has too many bytes.
    TextLength,
    /// No sentence begins with the symbols up to and including this one.
    BadNotation { at: usize },
    /// This bracket or prefix minus opens a level too many.
    TooDeep { at: usize },
    /// This variable, access or number is one too many.
    TooMany { what: Counted, at: usize },
    /// This number is too large.
    LiteralRange { at: usize },
    /// Want of memory.
    Memory(AllocError),
}

impl From<AllocError> for NotationFault {
    ghost use Rattle.std.specs.Prelude.{◌≡◌};
    ghost use Rattle.notation_grammar.specs.declared.fault.NotationFault.TheVariants as notation;

    ghost from_gives = { λ error fault. fault ≡ notation.Memory error };

    fn from(error: AllocError) -> NotationFault {
        NotationFault::Memory(error)
    }
}
