ghost use Rattle.std.specs.Prelude.{◌≡◌, ◌++◌, IfOk, OnOk};
ghost use Rattle.concrete_notation.specs.Nests.{terms_below};

use expr_terms::Term;
use index_notation::copy_expr;
use std::alloc::{AllocError, Global};
use trees::{Boxed, Items};

/// What a kernel is to do, as a tree of loops that says nothing of how tensors are stored. It adds to the result at a point
/// of the left variables.
#[derive(Debug, Drop)]
pub enum Concrete {
    /// A term is added where it is present, at the coordinates that the loops around it give its variables.
    Add(Term),
    /// The variable goes over its whole range, in increasing order, and each time its body is done.
    Forall(usize, Boxed<Concrete>),
    /// One after the other.
    Both(Boxed<Concrete>, Boxed<Concrete>),
    /// A workspace with these variables as keys: what the body, its producer, adds is summed there by the coordinates of
    /// the keys; then its consumer adds each sum, in increasing order of the keys, to the result.
    Where(Items<usize>, Boxed<Concrete>),
}

/// An equal term. Refused only for want of memory.
pub(crate) fn copy_term(alloc: Global, term: &Term) -> Result<Term, AllocError>
    ensures { IfOk result (λ copy. copy ≡ term.now) }
{
    let expr = copy_expr(alloc, &term.expr)?;
    Ok(Term {
        negated: term.negated,
        expr,
    })
}

/// Puts the terms of a concrete statement at the end of a list.
fn push_terms(alloc: Global, tree: &Concrete, list: &mut Items<Term>) -> Result<(), AllocError>
    ensures { OnOk result (list.new ≡ list.old ++ terms_below tree.now) }
{
    match tree {
        Concrete::Add(term) => {
            let term = copy_term(alloc, term)?;
            list.push(term)?;
        }
        Concrete::Forall(_, body) => push_terms(alloc, body.get(), list)?,
        Concrete::Both(first, second) => {
            push_terms(alloc, first.get(), list)?;
            push_terms(alloc, second.get(), list)?;
        }
        Concrete::Where(_, body) => push_terms(alloc, body.get(), list)?,
    }
    Ok(())
}

/// The terms of a concrete statement, in order: of the body of a loop, those that stand below it. Refused only for want of
/// memory.
pub fn terms_below(alloc: Global, tree: &Concrete) -> Result<Items<Term>, AllocError>
    ensures { IfOk result (λ list. list ≡ terms_below tree.now) }
{
    let mut list = Items::new(alloc);
    push_terms(alloc, tree, &mut list)?;
    Ok(list)
}
