// What is known of the arrays that a kernel is run on.
ghost use Rattle.std.specs.Prelude.{◌≡◌, IsTrue, IfSome};
ghost use Rattle.store_facts.specs.Facts.{Tells};

/// What is known of the arrays that a kernel is run on.
#[derive(Clone, Copy, Debug, PartialEq, Eq, Drop)]
pub enum StoreFact {
    /// The size of a level of a tensor is the range of a variable.
    Size {
        tensor: u64,
        level: u64,
        variable: u64,
    },
    /// Each coordinate that the level stores is below the range of the variable.
    Coordinates {
        tensor: u64,
        level: u64,
        variable: u64,
    },
}

/// A variable whose range is known to be the size of a level, if there is one.
pub(crate) fn range_of_size(facts: &[StoreFact], tensor: u64, level: u64) -> Option<u64>
    ensures { IfSome result (λ variable. Tells facts.now (StoreFact.Size tensor level variable)) }
{
    for fact in facts {
        match fact {
            StoreFact::Size {
                tensor: of,
                level: at,
                variable,
            } if *of == tensor && *at == level => return Some(*variable),
            _ => (),
        }
    }
    None
}

/// Whether a fact is known.
pub(crate) fn is_known(facts: &[StoreFact], fact: StoreFact) -> bool
    ensures { IsTrue result → Tells facts.now fact }
{
    for other in facts {
        if *other == fact {
            return true;
        }
    }
    false
}
