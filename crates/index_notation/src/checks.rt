//! Whether a statement is well formed.
ghost use Rattle.std.specs.Prelude.{◌≡◌, ◌≢◌, ◌+◌, ◌<◌, ◌^◌, IsTrue, length};
ghost use Rattle.index_notation.specs.Statement.{IsAccess, IsRead, AccessesUnder, AreSums, IsDistinct, HaveOneOrder, HaveOrders};
ghost use Rattle.index_notation.specs.Statement.{numbers_from};
ghost use Rattle.lists.specs.Each.{Each};

use crate::syntax::{Access, Expr, NestedSum, Statement};
use limits::{greatest_order_of_tensor, greatest_variables_of_statement};

/// Whether each number is below the bound.
fn are_below(numbers: &[usize], bound: usize) -> bool
    ensures told { IsTrue result → Each (λ v. v < bound) numbers.now }
    ensures found { Each (λ v. v < bound) numbers.now → IsTrue result }
{
    let Some((first, others)) = numbers.split_first() else {
        return true;
    };
    *first < bound && are_below(others, bound)
}

/// Whether this is an access to one of so many tensors by some of so many variables, however many it has.
fn is_read(access: &Access, tensors: usize, vars: usize) -> bool
    ensures told { IsTrue result → IsRead tensors vars access.now }
    ensures found { IsRead tensors vars access.now → IsTrue result }
{
    access.tensor < tensors && are_below(access.vars.as_slice(), vars)
}

/// Whether each access is one, however many variables it has.
fn are_read(accesses: &[Access], tensors: usize, vars: usize) -> bool
    ensures told { IsTrue result → Each (IsRead tensors vars) accesses.now }
    ensures found { Each (IsRead tensors vars) accesses.now → IsTrue result }
{
    let Some((first, others)) = accesses.split_first() else {
        return true;
    };
    is_read(first, tensors, vars) && are_read(others, tensors, vars)
}

/// Whether this is an access to one of so many tensors by some of so many variables.
fn is_access(access: &Access, tensors: usize, vars: usize) -> bool
    ensures told { IsTrue result → IsAccess tensors vars access.now }
    ensures found { IsAccess tensors vars access.now → IsTrue result }
{
    access.tensor < tensors
        && access.vars.len() as u64 <= greatest_order_of_tensor()
        && are_below(access.vars.as_slice(), vars)
}

/// Whether each access is one.
fn are_accesses(accesses: &[Access], tensors: usize, vars: usize) -> bool
    ensures told { IsTrue result → Each (IsAccess tensors vars) accesses.now }
    ensures found { Each (IsAccess tensors vars) accesses.now → IsTrue result }
{
    let Some((first, others)) = accesses.split_first() else {
        return true;
    };
    is_access(first, tensors, vars) && are_accesses(others, tensors, vars)
}

/// Whether the accesses of an expression are among so many.
fn is_under(expr: &Expr, count: usize) -> bool
    ensures told { IsTrue result → AccessesUnder count expr.now }
    ensures found { AccessesUnder count expr.now → IsTrue result }
{
    match expr {
        Expr::Num(_) => true,
        Expr::Access(n) => *n < count,
        Expr::Binary(_, first, second) => {
            is_under(first.get(), count) && is_under(second.get(), count)
        }
        Expr::Neg(inner) => is_under(inner.get(), count),
    }
}

/// Whether sums, of which the first has this number, go over some of so many variables, and inside each stand accesses and
/// earlier sums.
fn are_sums(sums: &[NestedSum], vars: usize, number: usize) -> bool
    requires { number + length sums.now < 2 ^ 64 }
    ensures told { IsTrue result → AreSums vars number sums.now }
    ensures found { AreSums vars number sums.now → IsTrue result }
{
    let Some((first, others)) = sums.split_first() else {
        return true;
    };
    first.var < vars && is_under(&first.inside, number) && are_sums(others, vars, number + 1)
}

/// Whether no access is to the result.
fn are_unread(accesses: &[Access]) -> bool
    ensures told { IsTrue result → Each (λ a. a.tensor ≢ 0) accesses.now }
    ensures found { Each (λ a. a.tensor ≢ 0) accesses.now → IsTrue result }
{
    let Some((first, others)) = accesses.split_first() else {
        return true;
    };
    first.tensor != 0 && are_unread(others)
}

/// Whether an access has as many variables as each of the others of its tensor.
fn has_one_order(access: &Access, others: &[Access]) -> bool
    ensures told { IsTrue result → Each (HaveOneOrder access.now) others.now }
    ensures found { Each (HaveOneOrder access.now) others.now → IsTrue result }
{
    let Some((first, others)) = others.split_first() else {
        return true;
    };
    (access.tensor != first.tensor || access.vars.len() == first.vars.len())
        && has_one_order(access, others)
}

/// Whether the accesses of each tensor have one number of variables.
fn have_orders(accesses: &[Access]) -> bool
    ensures told { IsTrue result → HaveOrders accesses.now }
    ensures found { HaveOrders accesses.now → IsTrue result }
{
    let Some((first, others)) = accesses.split_first() else {
        return true;
    };
    has_one_order(first, others) && have_orders(others)
}

/// Whether a number isn't in the list.
fn is_apart(number: usize, others: &[usize]) -> bool
    ensures told { IsTrue result → Each (λ y. number ≢ y) others.now }
    ensures found { Each (λ y. number ≢ y) others.now → IsTrue result }
{
    let Some((first, others)) = others.split_first() else {
        return true;
    };
    number != *first && is_apart(number, others)
}

/// Whether no number stands twice.
fn is_distinct(numbers: &[usize]) -> bool
    ensures told { IsTrue result → IsDistinct numbers.now }
    ensures found { IsDistinct numbers.now → IsTrue result }
{
    let Some((first, others)) = numbers.split_first() else {
        return true;
    };
    is_apart(*first, others) && is_distinct(others)
}

/// Whether no access has a variable twice.
fn are_distinct(accesses: &[Access]) -> bool
    ensures told { IsTrue result → Each (λ a. IsDistinct a.vars) accesses.now }
    ensures found { Each (λ a. IsDistinct a.vars) accesses.now → IsTrue result }
{
    let Some((first, others)) = accesses.split_first() else {
        return true;
    };
    is_distinct(first.vars.as_slice()) && are_distinct(others)
}

/// Whether the numbers are those one after another from this one on.
fn go_up_from(next: u64, numbers: &[usize]) -> bool
    requires { next + length numbers.now < 2 ^ 64 }
    ensures told { IsTrue result → numbers.now ≡ numbers_from next (length numbers.now) }
    ensures found { numbers.now ≡ numbers_from next (length numbers.now) → IsTrue result }
{
    let Some((first, others)) = numbers.split_first() else {
        return true;
    };
    *first as u64 == next && go_up_from(next + 1, others)
}

impl Statement {
    ghost use Rattle.index_notation.specs.Statement.{IsNumbered, IsNumberedWithSums, IsWellNamed};

    /// Whether each number of a tensor, a variable, an access and a nested sum stands in its list, and neither an access nor
    /// the statement has more variables than may be.
    pub fn is_numbered_with_sums(&self) -> bool
        ensures told { IsTrue result → IsNumberedWithSums self.now }
        ensures found { IsNumberedWithSums self.now → IsTrue result }
    {
        let (tensors, vars) = (self.tensors.len(), self.vars.len());
        let count = self.accesses.len();
        is_access(&self.left, tensors, vars)
            && are_accesses(self.accesses.as_slice(), tensors, vars)
            && are_sums(self.sums.as_slice(), vars, count)
            && is_under(&self.expr, count + self.sums.len())
            && vars as u64 <= greatest_variables_of_statement()
    }

    /// The same where no nested sum stands in the expression: whether each number of a tensor, a variable and an access stands
    /// in its list, and neither the left access nor the statement has more variables than may be.
    pub fn is_numbered(&self) -> bool
        ensures told { IsTrue result → IsNumbered self.now }
        ensures found { IsNumbered self.now → IsTrue result }
    {
        is_access(&self.left, self.tensors.len(), self.vars.len())
            && are_read(
                self.accesses.as_slice(),
                self.tensors.len(),
                self.vars.len(),
            )
            && is_under(&self.expr, self.accesses.len())
            && self.vars.len() as u64 <= greatest_variables_of_statement()
    }

    /// Whether the result is tensor 0 and isn't read, each tensor has one order, no access has a variable twice, and
    /// the left side's variables are numbered 0, 1 and so on.
    pub fn is_well_named(&self) -> bool
        ensures told { IsTrue result → IsWellNamed self.now }
        ensures found { IsWellNamed self.now → IsTrue result }
    {
        let accesses = self.accesses.as_slice();
        let left = self.left.vars.as_slice();
        self.left.tensor == 0
            && are_unread(accesses)
            && has_one_order(&self.left, accesses)
            && have_orders(accesses)
            && is_distinct(left)
            && are_distinct(accesses)
            && go_up_from(0, left)
    }
}
