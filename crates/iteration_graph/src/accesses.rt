ghost use Rattle.std.specs.Prelude.{◌≡◌, ◌++◌, ◌∷◌, length, IfOk, OnOk};
ghost use Rattle.format_spec.specs.Formats.{IsFormat};
ghost use Rattle.lists.specs.Each.{Each};
ghost use Rattle.iteration_graph.specs.Edges.{access_edges, statement_edges, AreFormed, HasFormat};

use format_spec::Format;
use index_notation::Statement;
use std::alloc::{AllocError, Global};
use trees::Items;

/// Appends the edges of an access of these variables to a tensor of this format.
fn put_edges(
    edges: &mut Items<(usize, usize)>,
    format: &Format,
    vars: &[usize],
) -> Result<(), AllocError>
    requires { length format.now ≡ length vars.now }
    ensures edges { OnOk result (edges.new ≡ edges.old ++ access_edges format.now vars.now) }
    ensures format { IsFormat format.now }
{
    if format.is_all_dense() {
        return Ok(());
    }
    for level in 1..format.order() {
        edges.push((vars[format.mode(level)], vars[format.mode(level + 1)]))?;
    }
    Ok(())
}

/// The edges of an access of these variables to a tensor of this format. Refused only for want of memory.
pub fn edges_of_access(
    alloc: Global,
    format: &Format,
    vars: &[usize],
) -> Result<Items<(usize, usize)>, AllocError>
    requires { length format.now ≡ length vars.now }
    ensures { IfOk result (λ edges. edges ≡ access_edges format.now vars.now) }
{
    let mut edges = Items::new(alloc);
    put_edges(&mut edges, format, vars)?;
    Ok(edges)
}

/// The edges between the variables of a statement under the formats of its tensors: each access, the result's included,
/// gives one between the variables of each two consecutive levels, from the upper to the lower, and none where all its
/// levels are dense. Refused only for want of memory.
pub fn edges(
    alloc: Global,
    statement: &Statement,
    formats: &[Format],
) -> Result<Items<(usize, usize)>, AllocError>
    requires left { HasFormat formats.now statement.now.left }
    requires right { Each (HasFormat formats.now) statement.now.accesses }
    ensures edges { IfOk result (λ edges. edges ≡ statement_edges statement.now formats.now) }
    ensures formats { IfOk result (λ edges. AreFormed formats.now (statement.now.left ∷ statement.now.accesses)) }
{
    let left = &statement.left;
    let mut edges = Items::new(alloc);
    put_edges(&mut edges, &formats[left.tensor], left.vars.as_slice())?;
    for access in statement.accesses.as_slice() {
        put_edges(&mut edges, &formats[access.tensor], access.vars.as_slice())?;
    }
    Ok(edges)
}
