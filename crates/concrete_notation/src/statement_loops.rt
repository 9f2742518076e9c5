//! A statement turned into loops.
ghost use Rattle.std.specs.Prelude.{◌≡◌, ◌<◌, ◌++◌, ◌∷◌, [], ◌||◌, List, Some, map, length, IfOk};
ghost use Rattle.std.specs.List.{flat_map};
ghost use Rattle.index_notation.specs.Statement.{IsNumbered, IsWellNamed};
ghost use Rattle.expr_terms.specs.Groups.{groups as groups_of};
ghost use Rattle.expr_terms.specs.Terms.{contains};
ghost use Rattle.concrete_notation.specs.Nests.{Nest, workspaces, SharesLoops, IsOrderOf, loops_of, left_in_order, HasTerms};
ghost use Rattle.concrete_notation.specs.Nesting.{nest_in, nests_of_group, IsMade};
ghost use Rattle.concrete_notation.specs.Right.{IsRight};
ghost use Rattle.concrete_notation.specs.Workspaces.{HasWorkspaces};

use crate::concrete::{Concrete, copy_term};
use crate::nesting::{nest, put_term};
use expr_terms::{Groups, Term};
use format_spec::Format;
use index_notation::Statement;
use std::alloc::{AllocError, Global};
use trees::{Boxed, Items};

/// Whether a variable stands on the left or is one of these.
fn is_around(statement: &Statement, own: &[usize], var: usize) -> bool
    ensures { result ≡ (contains statement.now.left.vars var || contains own.now var) }
{
    let is_left = statement.left.vars.as_slice().contains(&var);
    is_left || own.contains(&var)
}

/// The loop order, restricted to the left variables and these.
fn loops_around(
    alloc: Global,
    statement: &Statement,
    order: &[usize],
    own: &[usize],
) -> Result<Items<usize>, AllocError>
    ensures { IfOk result (λ loops. loops ≡ loops_of statement.now order.now own.now) }
{
    let mut loops = Items::new(alloc);
    for var in order {
        if is_around(statement, own, *var) {
            loops.push(*var)?;
        }
    }
    Ok(loops)
}

/// A term in its loops beside what is made already, if anything is.
fn add_term(
    alloc: Global,
    before: Option<Concrete>,
    loops: &[usize],
    term: Term,
) -> Result<Concrete, AllocError>
    ensures { (done : List Nest) → IsMade done before → IfOk result (λ c. IsMade (done ++ nest_in loops.now term ∷ []) (Some c)) }
{
    match before {
        None => {
            let all = nest(alloc, loops, term)?;
            Ok(all)
        }
        Some(tree) => {
            let all = put_term(alloc, tree, loops, term)?;
            Ok(all)
        }
    }
}

/// The terms of a group in their loops beside what is made already, if anything is.
fn add_terms(
    alloc: Global,
    before: Option<Concrete>,
    loops: &[usize],
    terms: &[Term],
) -> Result<Option<Concrete>, AllocError>
    ensures { (done : List Nest) → IsMade done before → IfOk result (IsMade (done ++ map (nest_in loops.now) terms.now)) }
{
    let mut made = before;
    for term in terms {
        let term = copy_term(alloc, term)?;
        let all = add_term(alloc, made, loops, term)?;
        made = Some(all);
    }
    Ok(made)
}

/// The groups of a statement in their loops, if there are any.
fn loops_of_groups(
    alloc: Global,
    statement: &Statement,
    groups: &Groups,
    order: &[usize],
) -> Result<Option<Concrete>, AllocError>
    ensures { IfOk result (IsMade (flat_map (nests_of_group statement.now order.now) groups.now.list)) }
{
    let mut made = None;
    for group in groups.list.as_slice() {
        let loops = loops_around(alloc, statement, order, group.vars.as_slice())?;
        made = add_terms(alloc, made, loops.as_slice(), group.terms.as_slice())?;
    }
    Ok(made)
}

/// The terms of a statement, each in its loops.
fn loops_of_terms(
    alloc: Global,
    statement: &Statement,
    groups: &Groups,
    order: &[usize],
) -> Result<Concrete, AllocError>
    requires groups { groups.now.list ≡ groups_of statement.now }
    ensures terms { IfOk result (HasTerms statement.now order.now) }
    ensures plain { IfOk result (λ c. workspaces c ≡ []) }
    ensures shared { IfOk result SharesLoops }
{
    let made = loops_of_groups(alloc, statement, groups, order)?;
    let all = made.unwrap();
    Ok(all)
}

/// What is added goes through a workspace that is keyed by the left variables, in loop order.
fn through_workspace(
    alloc: Global,
    statement: &Statement,
    order: &[usize],
    tree: Concrete,
) -> Result<Concrete, AllocError>
    ensures { IfOk result (λ c. c ≡ Concrete.Where (left_in_order statement.now order.now) tree) }
{
    let keys = loops_around(alloc, statement, order, &[])?;
    let body = Boxed::new(alloc, tree)?;
    Ok(Concrete::Where(keys, body))
}

/// A statement in concrete notation. Each term stands in the loops over the left variables and its own ones, in the order
/// given; terms with the same next variable share its loop, and else part, in the order of their first terms. Where the
/// result's format has a level that isn't dense, all goes through one workspace whose keys are the left variables, in loop
/// order; there is no other. Refused only for want of memory.
pub fn concretize(
    alloc: Global,
    statement: &Statement,
    groups: &Groups,
    order: &[usize],
    formats: &[Format],
) -> Result<Concrete, AllocError>
    requires numbered { IsNumbered statement.now }
    requires named { IsWellNamed statement.now }
    requires groups { groups.now.list ≡ groups_of statement.now }
    requires order { IsOrderOf (length statement.now.vars) order.now }
    requires format { statement.now.left.tensor < length formats.now }
    ensures right { IfOk result (IsRight statement.now) }
    ensures terms { IfOk result (HasTerms statement.now order.now) }
    ensures shared { IfOk result SharesLoops }
    ensures workspaces { IfOk result (HasWorkspaces statement.now order.now formats.now) }
{
    let tree = loops_of_terms(alloc, statement, groups, order)?;
    if formats[statement.left.tensor].is_all_dense() {
        return Ok(tree);
    }
    let all = through_workspace(alloc, statement, order, tree)?;
    Ok(all)
}
