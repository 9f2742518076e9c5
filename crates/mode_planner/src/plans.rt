//! The accesses that are stored anew.
ghost use Rattle.std.specs.Prelude.{◌≡◌, ◌++◌, ◌∷◌, IfOk, OnOk, length, slice_index_or};
ghost use Rattle.std.specs.List.{list_any};
ghost use Rattle.lists.specs.Each.{Each};
ghost use Rattle.index_notation.specs.declared.syntax.Access.{Access};
ghost use Rattle.iteration_graph.specs.Edges.{access_edges, HasFormat};
ghost use Rattle.mode_planner.specs.Plans.{IsPlan, is_back, mode_of, modes_in_order, repack_of, repacks_of};

use format_spec::Format;
use index_notation::{Access, Statement, copy_access};
use iteration_graph::{OrderFault, edges, edges_of_access, order};
use std::alloc::{AllocError, Global};
use trees::Items;

/// An access whose tensor is to be stored in another order of its modes.
#[derive(Debug, Drop)]
pub struct Repack {
    /// The access.
    pub access: Access,
    /// The modes that its levels store then, from the top, each from 0: in the standing order of its variables.
    pub modes: Items<usize>,
}

/// Whether some edge of an access leads from a later variable of the standing order to an earlier one.
pub(crate) fn leads_back(alloc: Global, format: &Format, vars: &[usize]) -> Result<bool, AllocError>
    requires { length format.now ≡ length vars.now }
    ensures { IfOk result (λ leads. leads ≡ list_any is_back (access_edges format.now vars.now)) }
{
    let edges = edges_of_access(alloc, format, vars)?;
    Ok(edges.as_slice().iter().any(|edge| edge.1 < edge.0))
}

/// The mode at which a variable stands.
fn mode_of(vars: &[usize], var: usize) -> Option<usize>
    ensures { result ≡ mode_of vars.now var }
{
    vars.iter().position(|other| *other == var)
}

/// The modes at which variables stand, in the standing order of these.
pub(crate) fn modes_in_order(
    alloc: Global,
    count: usize,
    vars: &[usize],
) -> Result<Items<usize>, AllocError>
    ensures { IfOk result (λ modes. modes ≡ modes_in_order count vars.now) }
{
    let mut modes = Items::new(alloc);
    for var in 0..count {
        if let Some(mode) = mode_of(vars, var) {
            modes.push(mode)?;
        }
    }
    Ok(modes)
}

/// Appends an access to those that are stored anew, if it is one.
fn put_repack(
    repacks: &mut Items<Repack>,
    alloc: Global,
    count: usize,
    format: &Format,
    access: &Access,
) -> Result<(), AllocError>
    requires { length format.now ≡ length access.now.vars }
    ensures { OnOk result (repacks.new ≡ repacks.old ++ repack_of count format.now access.now) }
{
    let vars = access.vars.as_slice();
    if !leads_back(alloc, format, vars)? {
        return Ok(());
    }
    let repack = Repack {
        access: copy_access(alloc, access)?,
        modes: modes_in_order(alloc, count, vars)?,
    };
    repacks.push(repack)
}

/// All accesses that are stored anew, the result's first.
fn repacks(
    alloc: Global,
    statement: &Statement,
    formats: &[Format],
) -> Result<Items<Repack>, AllocError>
    requires left { HasFormat formats.now statement.now.left }
    requires right { Each (HasFormat formats.now) statement.now.accesses }
    ensures { IfOk result (λ repacks. repacks
        ≡ repacks_of formats.now (length statement.now.vars) (statement.now.left ∷ statement.now.accesses)) }
{
    let count = statement.vars.len();
    let left = &statement.left;
    let mut repacks = Items::new(alloc);
    put_repack(&mut repacks, alloc, count, &formats[left.tensor], left)?;
    for access in statement.accesses.as_slice() {
        put_repack(&mut repacks, alloc, count, &formats[access.tensor], access)?;
    }
    Ok(repacks)
}

/// The accesses of a statement that have to be stored in another order of their modes, so that its loops have an order: none where they
/// have one; and else each access, the result's first, under whose format an edge leads from a later variable of the standing order to
/// an earlier one. Refused only for want of memory.
pub fn plan(
    alloc: Global,
    statement: &Statement,
    formats: &[Format],
) -> Result<Items<Repack>, AllocError>
    requires left { HasFormat formats.now statement.now.left }
    requires right { Each (HasFormat formats.now) statement.now.accesses }
    ensures { IfOk result (IsPlan statement.now formats.now) }
{
    let edges = edges(alloc, statement, formats)?;
    match order(alloc, statement.vars.len(), edges.as_slice()) {
        Ok(_) => Ok(Items::new(alloc)),
        Err(OrderFault::Cycle(_)) => repacks(alloc, statement, formats),
        Err(OrderFault::Memory(error)) => Err(error),
    }
}
