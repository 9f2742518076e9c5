//! Which accesses are read, also inside of nested sums, and which sums start at a loop.
ghost use Rattle.std.specs.Prelude.{◌≡◌, ◌+◌, ◌<◌, ◌≤◌, ◌^◌, length};
ghost use Rattle.lowering.specs.Seeking.{has_access, uses};
ghost use Rattle.lowering.specs.Sums.{are_bound, first_sum, is_met, reads, starts_at, through, vars_at};

use crate::seeking::{has_access, uses};
use concrete_notation::Concrete;
use index_notation::{Expr, Statement};

/// The number of the access that reads the first sum.
pub(crate) fn first_sum(statement: &Statement) -> usize
    requires { length statement.now.sums ≤ length statement.now.accesses }
    ensures is { result ≡ first_sum statement.now }
    ensures fits { result + length statement.now.sums < 2 ^ 64 }
{
    statement.accesses.len() - statement.sums.len()
}

/// Whether an access stands in an expression, or inside a sum that is read there, of those before the limit.
fn stands_through(statement: &Statement, limit: usize, expr: &Expr, access: usize) -> bool
    requires sums { length statement.now.sums ≤ length statement.now.accesses }
    requires limit { limit ≤ length statement.now.sums }
    ensures { result ≡ through statement.now limit (has_access expr.now) access }
{
    for number in 0..limit {
        let sum = &statement.sums.as_slice()[number];
        if has_access(expr, first_sum(statement) + number)
            && stands_through(statement, number, &sum.inside, access)
        {
            return true;
        }
    }
    has_access(expr, access)
}

/// Whether some term of a concrete statement reads an access, or what is summed for it does, by sums before the limit.
pub(crate) fn reads(statement: &Statement, limit: usize, tree: &Concrete, access: usize) -> bool
    requires sums { length statement.now.sums ≤ length statement.now.accesses }
    requires limit { limit ≤ length statement.now.sums }
    ensures { result ≡ reads statement.now limit tree.now access }
{
    for number in 0..limit {
        let sum = &statement.sums.as_slice()[number];
        if uses(tree, first_sum(statement) + number)
            && stands_through(statement, number, &sum.inside, access)
        {
            return true;
        }
    }
    uses(tree, access)
}

/// Whether each of some variables is bound.
fn are_bound(bound: &[usize], vars: &[usize]) -> bool
    ensures { result ≡ are_bound bound.now vars.now }
{
    for at in 0..vars.len() {
        if !bound.contains(&vars[at]) {
            return false;
        }
    }
    true
}

/// Whether the innermost loop is over one of the variables, or there is no loop.
fn is_met(at: Option<usize>, vars: &[usize]) -> bool
    ensures { result ≡ is_met at vars.now }
{
    match at {
        Some(variable) => vars.contains(&variable),
        None => true,
    }
}

/// Whether a sum is used by a body and starts inside the loops of bound variables, the innermost of which is told.
pub(crate) fn starts(
    statement: &Statement,
    body: &Concrete,
    limit: usize,
    number: usize,
    at: Option<usize>,
    bound: &[usize],
) -> bool
    requires sums { length statement.now.sums ≤ length statement.now.accesses }
    requires limit { limit ≤ length statement.now.sums }
    requires number { number < length statement.now.sums }
    ensures { result ≡ starts_at statement.now (reads statement.now limit body.now) at bound.now number }
{
    let access = first_sum(statement) + number;
    let vars = statement.accesses.as_slice()[access].vars.as_slice();
    reads(statement, limit, body, access) && is_met(at, vars) && are_bound(bound, vars)
}
