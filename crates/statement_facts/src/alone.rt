//! The variable that stands at a mode of a tensor.
ghost use Rattle.std.specs.Prelude.{◌≡◌, ℕ, List, ◌∷◌, Some, slice_get};
ghost use Rattle.index_notation.specs.declared.syntax.Access.{Access};
ghost use Rattle.statement_facts.specs.Alone.{StandsIn, StandsAlone};

use index_notation::{Access, Statement};

/// Which variables stand at a mode of a tensor, in some accesses.
#[derive(Clone, Copy, Debug, PartialEq, Eq, Drop)]
pub(crate) enum Standing {
    Nothing,
    One(usize),
    Several,
}

/// With one variable more.
fn with_variable(v: usize, standing: Standing) -> Standing
    ensures { (tensor mode : ℕ) (first : Access) (accesses : List Access) → first.tensor ≡ tensor → slice_get first.vars mode ≡ Some v
        → StandsIn tensor mode accesses standing → StandsIn tensor mode (first ∷ accesses) result }
{
    match standing {
        Standing::Nothing => Standing::One(v),
        Standing::One(w) => {
            if w == v {
                return Standing::One(v);
            }
            Standing::Several
        }
        Standing::Several => Standing::Several,
    }
}

/// With those of one access before the others.
fn with_access(access: &Access, tensor: usize, mode: usize, standing: Standing) -> Standing
    ensures { (accesses : List Access) → StandsIn tensor mode accesses standing
        → StandsIn tensor mode (access.now ∷ accesses) result }
{
    if access.tensor != tensor {
        return standing;
    }
    match access.vars.get(mode) {
        Some(v) => with_variable(*v, standing),
        None => standing,
    }
}

/// Which variables stand at a mode of a tensor, in accesses.
fn standing_in(accesses: &[Access], tensor: usize, mode: usize) -> Standing
    ensures { StandsIn tensor mode accesses.now result }
{
    let Some((first, others)) = accesses.split_first() else {
        return Standing::Nothing;
    };
    let standing = standing_in(others, tensor, mode);
    with_access(first, tensor, mode, standing)
}

/// The variable that alone stands at a mode of a tensor, in all accesses of a statement, if there is such a one.
pub(crate) fn alone_at(statement: &Statement, tensor: usize, mode: usize) -> Option<usize>
    ensures { StandsAlone statement.now tensor mode result }
{
    let right = standing_in(statement.accesses.as_slice(), tensor, mode);
    match with_access(&statement.left, tensor, mode, right) {
        Standing::One(v) => Some(v),
        _ => None,
    }
}
