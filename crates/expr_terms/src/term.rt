//! The terms of a right side, and the variables over which each of them is summed.
ghost use Rattle.std.specs.Prelude.{◌≡◌, [], ◌∷◌, ◌++◌, IfOk, OnOk};
ghost use Rattle.expr_terms.specs.Signs.{sign_behind, signed_terms};
ghost use Rattle.expr_terms.specs.Terms.{plain_term, terms, stands_in, is_own, own_in, own_variables};

use crate::lookups::{has_number, stands_at};
use index_notation::{Access, Expr, Operator, Statement, copy_expr};
use std::alloc::{AllocError, Global};
use trees::Items;

/// A term of a right side: an expression that is added, or taken away where it is negated.
#[derive(Debug, Drop)]
pub struct Term {
    pub negated: bool,
    pub expr: Expr,
}

/// Whether a variable stands in an expression over these accesses.
pub fn stands_in(accesses: &[Access], var: usize, expr: &Expr) -> bool
    ensures { result ≡ stands_in accesses.now var expr.now }
{
    match expr {
        Expr::Num(_) => false,
        Expr::Access(n) => stands_at(accesses, *n, var),
        Expr::Binary(_, first, second) => {
            stands_in(accesses, var, first.get()) || stands_in(accesses, var, second.get())
        }
        Expr::Neg(inner) => stands_in(accesses, var, inner.get()),
    }
}

/// Whether a variable stands in an expression and not on the left.
fn is_own(statement: &Statement, expr: &Expr, var: usize) -> bool
    ensures { result ≡ is_own statement.now expr.now var }
{
    let is_left = has_number(statement.left.vars.as_slice(), var);
    stands_in(statement.accesses.as_slice(), var, expr) && !is_left
}

/// The variables of an expression that don't stand on the left, in standing order.
pub(crate) fn own_in(
    alloc: Global,
    statement: &Statement,
    expr: &Expr,
) -> Result<Items<usize>, AllocError>
    ensures { IfOk result (λ own. own ≡ own_in statement.now expr.now) }
{
    let mut own = Items::new(alloc);
    for var in 0..statement.vars.len() {
        if is_own(statement, expr, var) {
            own.push(var)?;
        }
    }
    Ok(own)
}

/// The own variables of a term: those that stand in it and not on the left, in standing order. Refused only for want of
/// memory.
pub fn own_variables(
    alloc: Global,
    statement: &Statement,
    term: &Term,
) -> Result<Items<usize>, AllocError>
    ensures { IfOk result (λ own. own ≡ own_variables statement.now term.now) }
{
    own_in(alloc, statement, &term.expr)
}

/// Whether the terms behind an operator are negated, where those before it are or aren't.
pub(crate) fn sign_behind(operator: Operator, negated: bool) -> bool
    ensures { result ≡ sign_behind operator negated }
{
    match operator {
        Operator::Add => negated,
        Operator::Sub => !negated,
        Operator::Mul => negated,
    }
}

/// Puts an expression that is one term, negated where `negated` says so, at the end of a list.
fn push_one(
    alloc: Global,
    expr: &Expr,
    negated: bool,
    list: &mut Items<Term>,
) -> Result<(), AllocError>
    requires { terms expr.now ≡ plain_term expr.now ∷ [] }
    ensures { OnOk result (list.new ≡ list.old ++ signed_terms negated expr.now) }
{
    let expr = copy_expr(alloc, expr)?;
    list.push(Term { negated, expr })
}

/// Puts the terms of an expression, each negated where `negated` says so, at the end of a list.
fn push_terms(
    alloc: Global,
    expr: &Expr,
    negated: bool,
    list: &mut Items<Term>,
) -> Result<(), AllocError>
    ensures { OnOk result (list.new ≡ list.old ++ signed_terms negated expr.now) }
{
    match expr {
        Expr::Binary(operator, first, second) => {
            if operator.is_product() {
                return push_one(alloc, expr, negated, list);
            }
            push_terms(alloc, first.get(), negated, list)?;
            let behind = sign_behind(*operator, negated);
            push_terms(alloc, second.get(), behind, list)
        }
        Expr::Neg(inner) => push_terms(alloc, inner.get(), !negated, list),
        Expr::Num(_) | Expr::Access(_) => push_one(alloc, expr, negated, list),
    }
}

/// The terms of an expression, in text order. Brackets only group, and a minus negates the terms behind it; what is no
/// sum, difference or negation is one term, a product too whose factors are sums. Refused only for want of memory.
pub fn terms(alloc: Global, expr: &Expr) -> Result<Items<Term>, AllocError>
    ensures { IfOk result (λ list. list ≡ terms expr.now) }
{
    let mut list = Items::new(alloc);
    push_terms(alloc, expr, false, &mut list)?;
    Ok(list)
}
