ghost use Rattle.std.specs.Prelude.{◌≡◌};
ghost use Rattle.bindings.specs.declared.fault.BindingFault.TheVariants.{Memory};

use format_spec::FormatFault;
use std::alloc::AllocError;

/// Why a word behind EXPR is refused, the first of these that holds.
#[derive(Clone, Copy, Debug, PartialEq, Eq, Drop)]
pub enum WordFault {
    /// It is none of the three forms.
    BadBinding,
    /// The statement has no such tensor, or no such variable.
    UnknownName,
    /// A word before it gives this tensor a format or a file, or this variable a range, by the same form.
    Twice,
    /// The file is a matrix, and the tensor's order isn't 1 or 2.
    NotMatrix,
    /// The range is above the greatest that a word may give.
    RangeLimit,
}

/// Why words bind nothing, the first of these that holds.
#[derive(Debug, Drop)]
pub enum BindingFault {
    /// This word, counted from 1, is the first that is refused.
    Word { word: usize, fault: WordFault },
    /// This tensor is the first operand without a file.
    NoFile { tensor: usize },
    /// This tensor is the first whose format is none.
    BadFormat { tensor: usize, fault: FormatFault },
    /// Memory was wanted.
    Memory(AllocError),
}

impl From<AllocError> for BindingFault {
    ghost from_gives = { λ error fault. fault ≡ Memory error };

    fn from(error: AllocError) -> BindingFault {
        BindingFault::Memory(error)
    }
}
