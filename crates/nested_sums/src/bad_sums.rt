//! Whether the variable of some nested sum is bound and free, told without memory: what stands inside a sum is read anew for each
//! variable.
ghost use Rattle.std.specs.Prelude.{◌≡◌, ◌+◌, ◌≤◌, IfErr, IfOk, MatchResult, length};
ghost use Rattle.index_notation.specs.Statement.{AccessesUnder, IsNumberedWithSums};
ghost use Rattle.nested_sums.specs.Bad.{is_bad, AreFine, IsFirstBadSum, ReadsItsSums, first_where, mention_of};
ghost use Rattle.nested_sums.specs.Bad.{never_mentioned, access_mention, both_mention, sum_mention};
ghost use Rattle.nested_sums.specs.Bound.{HasNoBadSum, bound_in, bounds};

use crate::inner_sums::has_number;
use expr_terms::NameFault;
use index_notation::{Access, Expr, Statement};

/// How an expression mentions a variable: whether it stands in an access there outside of sums over it, whether some sum there binds it,
/// and whether two do.
#[derive(Clone, Copy, Debug, Drop)]
pub(crate) struct Mention {
    pub free: bool,
    pub bound: bool,
    pub twice: bool,
}

/// How nothing does.
fn never_mentioned() -> Mention
    ensures { result ≡ never_mentioned }
{
    Mention {
        free: false,
        bound: false,
        twice: false,
    }
}

/// How an access does.
fn access_mention(access: &Access, var: usize) -> Mention
    ensures { result ≡ access_mention var access.now }
{
    Mention {
        free: has_number(access.vars.as_slice(), var),
        bound: false,
        twice: false,
    }
}

/// How two sides do.
fn both_mention(first: Mention, second: Mention) -> Mention
    ensures { result ≡ both_mention first second }
{
    Mention {
        free: first.free || second.free,
        bound: first.bound || second.bound,
        twice: first.twice || second.twice || (first.bound && second.bound),
    }
}

/// How a sum over `own` does.
fn sum_mention(var: usize, own: usize, inside: Mention) -> Mention
    ensures { result ≡ sum_mention var own inside }
{
    Mention {
        free: inside.free && own != var,
        bound: own == var || inside.bound,
        twice: inside.twice || (own == var && inside.bound),
    }
}

/// How an expression does in which the accesses and the first `count` sums of a statement may stand.
fn expr_mention(statement: &Statement, count: usize, var: usize, expr: &Expr) -> Mention
    requires numbered { IsNumberedWithSums statement.now }
    requires known { count ≤ length statement.now.sums }
    requires under { AccessesUnder (length statement.now.accesses + count) expr.now }
    ensures { result ≡ mention_of statement.now var expr.now }
{
    match expr {
        Expr::Num(_) => never_mentioned(),
        Expr::Access(n) => {
            if let Some(access) = statement.accesses.get(*n) {
                return access_mention(access, var);
            }
            let number = *n - statement.accesses.len();
            let sum = &statement.sums.as_slice()[number];
            let inside = expr_mention(statement, number, var, &sum.inside);
            sum_mention(var, sum.var, inside)
        }
        Expr::Binary(_, first, second) => {
            let first = expr_mention(statement, count, var, first.get());
            let second = expr_mention(statement, count, var, second.get());
            both_mention(first, second)
        }
        Expr::Neg(inner) => expr_mention(statement, count, var, inner.get()),
    }
}

/// Whether a sum over this variable is bad: it stands on the left, in an access outside the sum, or is bound by another sum.
fn is_bad(statement: &Statement, var: usize) -> bool
    requires { IsNumberedWithSums statement.now }
    ensures { result ≡ is_bad statement.now var }
{
    let mention = expr_mention(statement, statement.sums.len(), var, &statement.expr);
    has_number(statement.left.vars.as_slice(), var) || mention.free || mention.twice
}

/// The variable of the first bad sum of an expression in which the accesses and the first `count` sums of a statement may stand.
fn first_bad(statement: &Statement, count: usize, expr: &Expr) -> Option<usize>
    requires numbered { IsNumberedWithSums statement.now }
    requires known { count ≤ length statement.now.sums }
    requires under { AccessesUnder (length statement.now.accesses + count) expr.now }
    ensures { result ≡ first_where (is_bad statement.now) (bound_in (bounds statement.now) expr.now) }
{
    match expr {
        Expr::Num(_) => None,
        Expr::Access(n) => {
            if *n < statement.accesses.len() {
                return None;
            }
            let number = *n - statement.accesses.len();
            let sum = &statement.sums.as_slice()[number];
            if is_bad(statement, sum.var) {
                return Some(sum.var);
            }
            first_bad(statement, number, &sum.inside)
        }
        Expr::Binary(_, first, second) => {
            if let Some(var) = first_bad(statement, count, first.get()) {
                return Some(var);
            }
            first_bad(statement, count, second.get())
        }
        Expr::Neg(inner) => first_bad(statement, count, inner.get()),
    }
}

/// Whether no nested sum's variable stands on the left, in an access outside the sum, or is bound by another sum. Otherwise the variable
/// of the first such sum in text order, by where they begin. Accesses are checked before, by `check_names` of `expr_terms`. It takes no
/// memory.
pub fn check_sums(statement: &Statement) -> Result<(), NameFault>
    requires numbered { IsNumberedWithSums statement.now }
    ensures first { MatchResult result (λ _. AreFine statement.now) (IsFirstBadSum statement.now) }

    // What `multiply_out` needs, where each sum is read: as it is in a text.
    ensures clear { ReadsItsSums statement.now → IfOk result (λ _. HasNoBadSum statement.now) }
    ensures only { IfErr result (λ _. HasNoBadSum statement.now → ⊥) }
{
    match first_bad(statement, statement.sums.len(), &statement.expr) {
        None => Ok(()),
        Some(var) => Err(NameFault::BadSum { var }),
    }
}
