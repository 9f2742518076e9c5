//! Terms put into loops.
ghost use Rattle.std.specs.Prelude.{◌≡◌, false, IfOk};
ghost use Rattle.expr_terms.specs.Terms.{contains};
ghost use Rattle.concrete_notation.specs.Nests.{next_loops};
ghost use Rattle.concrete_notation.specs.Nesting.{shares, IsNest, IsPut};

use crate::concrete::Concrete;
use expr_terms::Term;
use std::alloc::{AllocError, Global};
use trees::Boxed;

/// A term in these loops alone.
pub(crate) fn nest(alloc: Global, loops: &[usize], term: Term) -> Result<Concrete, AllocError>
    ensures { IfOk result (IsNest loops.now term) }
{
    let Some((var, inner)) = loops.split_first() else {
        return Ok(Concrete::Add(term));
    };
    let body = nest(alloc, inner, term)?;
    let body = Boxed::new(alloc, body)?;
    Ok(Concrete::Forall(*var, body))
}

/// Whether a loop over the variable stands there, perhaps beside others.
fn has_loop(tree: &Concrete, var: usize) -> bool
    ensures { result ≡ contains (next_loops tree.now) var }
{
    match tree {
        Concrete::Forall(v, _) => *v == var,
        Concrete::Both(first, second) => {
            let left = has_loop(first.get(), var);
            let right = has_loop(second.get(), var);
            left || right
        }
        Concrete::Add(_) | Concrete::Where(_, _) => false,
    }
}

/// Whether the first of some loops stands there.
fn shares_loop(tree: &Concrete, loops: &[usize]) -> bool
    ensures { result ≡ shares (next_loops tree.now) loops.now }
{
    let Some(var) = loops.first() else {
        return false;
    };
    has_loop(tree, *var)
}

/// One after the other.
fn sequence(alloc: Global, first: Concrete, second: Concrete) -> Result<Concrete, AllocError>
    ensures { IfOk result (λ c. c ≡ Concrete.Both first second) }
{
    let first = Boxed::new(alloc, first)?;
    let second = Boxed::new(alloc, second)?;
    Ok(Concrete::Both(first, second))
}

/// Puts a term in its loops behind what stands there.
fn put_behind(
    alloc: Global,
    tree: Concrete,
    loops: &[usize],
    term: Term,
) -> Result<Concrete, AllocError>
    requires { shares (next_loops tree) loops.now ≡ false }
    ensures { IfOk result (IsPut loops.now term tree) }
{
    let more = nest(alloc, loops, term)?;
    let all = sequence(alloc, tree, more)?;
    Ok(all)
}

/// Puts a term in its loops behind others: as far as its loops stand there already, into them.
pub(crate) fn put_term(
    alloc: Global,
    tree: Concrete,
    loops: &[usize],
    term: Term,
) -> Result<Concrete, AllocError>
    ensures { IfOk result (IsPut loops.now term tree) }
{
    match tree {
        Concrete::Both(first, second) => {
            let first = first.into_inner();
            let second = second.into_inner();
            if shares_loop(&first, loops) {
                let first = put_term(alloc, first, loops, term)?;
                let all = sequence(alloc, first, second)?;
                Ok(all)
            } else {
                let second = put_term(alloc, second, loops, term)?;
                let all = sequence(alloc, first, second)?;
                Ok(all)
            }
        }
        Concrete::Forall(var, body) => match loops.split_first() {
            Some((first, inner)) if *first == var => {
                let body = put_term(alloc, body.into_inner(), inner, term)?;
                let body = Boxed::new(alloc, body)?;
                Ok(Concrete::Forall(var, body))
            }
            _ => put_behind(alloc, Concrete::Forall(var, body), loops, term),
        },
        Concrete::Add(only) => put_behind(alloc, Concrete::Add(only), loops, term),
        Concrete::Where(keys, body) => put_behind(alloc, Concrete::Where(keys, body), loops, term),
    }
}
