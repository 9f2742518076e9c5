ghost use Rattle.std.specs.Prelude.{◌↔◌, ◌∷◌, IsTrue, Contains, MatchOption, MatchResult};
ghost use Rattle.lists.specs.Each.{Each};
ghost use Rattle.index_notation.specs.declared.syntax.Statement.{Statement};
ghost use Rattle.index_notation.specs.Statement.{HaveOneOrder, IsDistinct};
ghost use Rattle.expr_terms.specs.Names.{RepeatsFirst, IsFaultless, HasFault, HasNoNameFault, IsFirstNameFault};

use index_notation::{Access, Statement};

/// What is wrong with the names of an access, which are told by their numbers. Accesses are checked in text order, the
/// left one first, and at each access these are tried in this order.
#[derive(Debug, Clone, Copy, PartialEq, Eq)]
pub enum NameFault {
    /// An access of the right side is to the result.
    ResultRead { tensor: usize },
    /// The tensor stood earlier with another number of variables.
    Arity { tensor: usize },
    /// The variable stands twice in the access; of several the one whose second place comes first.
    RepeatedVariable { tensor: usize, var: usize },
    /// A nested sum's variable stands outside the sum too, on the left side or in an access, or is bound by another sum. Of a
    /// statement whose accesses have no fault, told by `check_sums` of `nested_sums`.
    BadSum { var: usize },
}

/// Whether a number is in a list.
fn is_among(numbers: &[usize], number: usize) -> bool
    ensures { IsTrue result ↔ Contains numbers.now number }
{
    numbers.contains(&number)
}

/// The first number that stands a second time.
fn first_repeated(numbers: &[usize]) -> Option<usize>
    ensures { MatchOption result (IsDistinct numbers.now) (RepeatsFirst numbers.now) }
{
    for (i, number) in numbers.iter().enumerate() {
        if is_among(&numbers[..i], *number) {
            return Some(*number);
        }
    }
    None
}

/// Whether two accesses are to different tensors or have one number of variables.
fn has_order_of(first: &Access, second: &Access) -> bool
    ensures { IsTrue result ↔ HaveOneOrder first.now second.now }
{
    first.tensor != second.tensor || first.vars.len() == second.vars.len()
}

/// Whether each of these accesses is to another tensor or has the number of variables of this one.
fn have_order_of(earlier: &[Access], access: &Access) -> bool
    ensures { IsTrue result ↔ Each (λ other. HaveOneOrder other access.now) earlier.now }
{
    for other in earlier {
        if !has_order_of(other, access) {
            return false;
        }
    }
    true
}

/// The fault of an access of the right side behind the left access and some others.
fn right_fault(left: &Access, earlier: &[Access], access: &Access) -> Option<NameFault>
    ensures { MatchOption result
        (IsFaultless left.now (left.now ∷ earlier.now) access.now)
        (HasFault left.now (left.now ∷ earlier.now) access.now) }
{
    let tensor = access.tensor;
    if tensor == left.tensor {
        return Some(NameFault::ResultRead { tensor });
    }
    if !has_order_of(left, access) || !have_order_of(earlier, access) {
        return Some(NameFault::Arity { tensor });
    }
    let var = first_repeated(access.vars.as_slice())?;
    Some(NameFault::RepeatedVariable { tensor, var })
}

/// Whether the names of a statement keep the rules: no access of the right side is to the result, the accesses of each
/// tensor have one number of variables, and none has a variable twice. Otherwise the fault of the first access that has
/// one, in text order, the left one first. It takes no memory.
pub fn check_names(statement: &Statement) -> Result<(), NameFault>
    ensures { MatchResult result (λ _. HasNoNameFault statement.now) (IsFirstNameFault statement.now) }
{
    let left = &statement.left;
    if let Some(var) = first_repeated(left.vars.as_slice()) {
        let tensor = left.tensor;
        return Err(NameFault::RepeatedVariable { tensor, var });
    }
    let accesses = statement.accesses.as_slice();
    for (i, access) in accesses.iter().enumerate() {
        if let Some(fault) = right_fault(left, &accesses[..i], access) {
            return Err(fault);
        }
    }
    Ok(())
}
