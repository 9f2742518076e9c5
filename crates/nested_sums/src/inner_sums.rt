//! Which nested sums are inner for a loop order, told without memory: what stands inside a sum is read anew for each variable.
ghost use Rattle.std.specs.Prelude.{◌≡◌, ◌<◌, length, take};
ghost use Rattle.expr_terms.specs.Terms.{contains, stands_before};
ghost use Rattle.nested_sums.specs.Inner.{none_stands, access_standing, both_standing, sum_standing, standing_in, standings};
ghost use Rattle.nested_sums.specs.Inner.{is_inner};

use index_notation::{Access, Expr, Statement};

/// What is told of an expression about one variable: whether it is free there, whether each variable that a sum there binds stands
/// behind it in the loop order, and whether that is so of each sum there in which the variable is free.
#[derive(Clone, Copy, Debug, Drop)]
pub(crate) struct Standing {
    pub free: bool,
    pub behind: bool,
    pub fits: bool,
}

/// Whether the number is in the list.
pub(crate) fn has_number(numbers: &[usize], number: usize) -> bool
    ensures { result ≡ contains numbers.now number }
{
    let Some((first, others)) = numbers.split_first() else {
        return false;
    };
    *first == number || has_number(others, number)
}

/// Whether a variable stands before another in an order.
fn stands_before(order: &[usize], first: usize, second: usize) -> bool
    ensures { result ≡ stands_before order.now first second }
{
    let Some((var, others)) = order.split_first() else {
        return false;
    };
    if *var == first {
        has_number(others, second)
    } else {
        stands_before(others, first, second)
    }
}

/// What is told of nothing.
fn none_stands() -> Standing
    ensures { result ≡ none_stands }
{
    Standing {
        free: false,
        behind: true,
        fits: true,
    }
}

/// What is told of an access.
fn access_standing(access: &Access, var: usize) -> Standing
    ensures { result ≡ access_standing var access.now }
{
    Standing {
        free: has_number(access.vars.as_slice(), var),
        behind: true,
        fits: true,
    }
}

/// What is told of two sides.
fn both_standing(first: Standing, second: Standing) -> Standing
    ensures { result ≡ both_standing first second }
{
    Standing {
        free: first.free || second.free,
        behind: first.behind && second.behind,
        fits: first.fits && second.fits,
    }
}

/// What is told of a sum over `own`.
fn sum_standing(order: &[usize], var: usize, own: usize, inside: Standing) -> Standing
    ensures { result ≡ sum_standing order.now var own inside }
{
    let free = inside.free && own != var;
    let behind = inside.behind && stands_before(order, var, own);
    Standing {
        free,
        behind,
        fits: inside.fits && (!free || behind),
    }
}

/// What is told of an expression about a variable, where the first `count` sums may stand in it.
fn expr_standing(
    statement: &Statement,
    count: usize,
    order: &[usize],
    var: usize,
    expr: &Expr,
) -> Standing
    ensures { result ≡ standing_in (standings statement.now (take count statement.now.sums) order.now var) expr.now }
{
    match expr {
        Expr::Num(_) => none_stands(),
        Expr::Access(n) => {
            if let Some(access) = statement.accesses.get(*n) {
                return access_standing(access, var);
            }
            let number = *n - statement.accesses.len();
            if number >= count {
                return none_stands();
            }
            let Some(sum) = statement.sums.get(number) else {
                return none_stands();
            };
            let inside = expr_standing(statement, number, order, var, &sum.inside);
            sum_standing(order, var, sum.var, inside)
        }
        Expr::Binary(_, first, second) => {
            let first = expr_standing(statement, count, order, var, first.get());
            let second = expr_standing(statement, count, order, var, second.get());
            both_standing(first, second)
        }
        Expr::Neg(inner) => expr_standing(statement, count, order, var, inner.get()),
    }
}

/// Whether a sum, by its number from 0, is inner for a loop order: its variable, and those of the sums within it, stand behind all
/// variables that are free in it, and the sums within it are inner too. `order` has the variables by their numbers, the outermost loop
/// first.
pub fn inner(statement: &Statement, order: &[usize], sum: usize) -> bool
    requires { sum < length statement.now.sums }
    ensures { result ≡ is_inner statement.now order.now sum }
{
    for var in 0..statement.vars.len() {
        let whole = &statement.sums.as_slice()[sum];
        let inside = expr_standing(statement, sum, order, var, &whole.inside);
        if !sum_standing(order, var, whole.var, inside).fits {
            return false;
        }
    }
    true
}
