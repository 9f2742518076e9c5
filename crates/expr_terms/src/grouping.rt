//! The terms of a statement in groups: those with equal own variables are summed over them at once.
ghost use Rattle.std.specs.Prelude.{◌≡◌, ◌<◌, ◌++◌, ◌∷◌, [], List, nat_eq, length, position, IfOk, IfSome, OnOk};
ghost use Rattle.std.specs.Cmp.Lexicographic.{pointwise};
ghost use Rattle.expr_terms.specs.Terms.{own_variables};
ghost use Rattle.expr_terms.specs.Groups.{groups, groups_in};
ghost use Rattle.expr_terms.specs.declared.term.Term.{Term as ATerm};

use crate::group::{Group, Groups};
use crate::term::{Term, own_variables, terms};
use index_notation::Statement;
use std::alloc::{AllocError, Global};
use trees::Items;

/// The place of the first group with these own variables, if there is one.
fn place_of(groups: &[Group], vars: &[usize]) -> Option<usize>
    ensures place { result ≡ position (λ group. pointwise nat_eq group.vars vars.now) groups.now }
    ensures within { IfSome result (λ n. n < length groups.now) }
{
    groups
        .iter()
        .position(|group| group.vars.as_slice() == vars)
}

/// A group of one term.
fn group_of_one(alloc: Global, vars: Items<usize>, term: Term) -> Result<Group, AllocError>
    ensures { IfOk result (λ group. (group.vars ≡ vars) × (group.terms ≡ term ∷ [])) }
{
    let mut terms = Items::new(alloc);
    terms.push(term)?;
    Ok(Group { vars, terms })
}

/// Puts a term behind those that are grouped: into the group of its own variables, or into a new one.
fn add_term(
    alloc: Global,
    statement: &Statement,
    groups: &mut Vec<Group>,
    term: Term,
) -> Result<(), AllocError>
    ensures { (ts : List ATerm) → groups.old.items ≡ groups_in statement.now ts
        → OnOk result (groups.new.items ≡ groups_in statement.now (ts ++ term ∷ [])) }
{
    let vars = own_variables(alloc, statement, &term)?;
    match place_of(groups.as_slice(), vars.as_slice()) {
        Some(n) => groups[n].terms.push(term)?,
        None => groups.push(group_of_one(alloc, vars, term)?)?,
    }
    Ok(())
}

/// The groups of a statement's terms: each term is in the one group of its own variables, groups stand in the order of
/// their first terms, and the terms of a group in text order. Refused only for want of memory.
pub fn groups(alloc: Global, statement: &Statement) -> Result<Groups, AllocError>
    ensures { IfOk result (λ made. made.list ≡ groups statement.now) }
{
    let mut list = Vec::new(alloc);
    for term in terms(alloc, &statement.expr)?.into_vec() {
        add_term(alloc, statement, &mut list, term)?;
    }
    Ok(Groups {
        list: Items::from_vec(list),
    })
}
