//! The statement that is run where storage orders have a cycle.
ghost use Rattle.std.specs.Prelude.{◌≡◌, ℕ, ◌+◌, List, [], ◌∷◌, ◌++◌, length, IfOk, IfSome, MatchOption, OnOk};
ghost use Rattle.lists.specs.Each.{Each};
ghost use Rattle.index_notation.specs.Statement.{IsAccess, IsDistinct, IsNumberedWithSums, IsWellNamed};
ghost use Rattle.index_notation.specs.declared.syntax.Access.{Access as AnAccess};
ghost use Rattle.iteration_graph.specs.Edges.{HasFormat};
ghost use Rattle.mode_planner.specs.Planned.{Answers, AreOrigins, CanBeCompiled, IsPlanned, IsPlannedOf, IsStoredAs};

use crate::formats::{is_same, planned_format};
use format_spec::Format;
use index_notation::{
    Access, Name, Statement, copy_access, copy_expr, copy_name, copy_names, copy_sums,
};
use iteration_graph::{OrderFault, edges, order};
use std::alloc::{AllocError, Global};
use trees::Items;

/// A statement whose accesses are stored as their plan tells. A tensor that is stored in two orders of its modes becomes two.
#[derive(Drop)]
pub struct Planned {
    /// The given statement but for its tensors, which are numbered by first appearance of a tensor and an order of its modes.
    pub statement: Statement,
    /// The format of each tensor, the result's first.
    pub formats: Items<Format>,
    /// For tensor 1, tensor 2 and so on the tensor of the given statement whose entries it stores.
    pub origins: Items<usize>,
}

/// The plan of no access of the right side.
fn begin(alloc: Global, statement: &Statement, formats: &[Format]) -> Result<Planned, AllocError>
    requires numbered { IsAccess (length statement.now.tensors) (length statement.now.vars) statement.now.left }
    requires result { statement.now.left.tensor ≡ 0 }
    requires once { IsDistinct statement.now.left.vars }
    requires left { HasFormat formats.now statement.now.left }
    ensures { IfOk result (IsPlannedOf statement.now formats.now []) }
{
    let left = &statement.left;
    let format = planned_format(
        alloc,
        statement.vars.len(),
        &formats[left.tensor],
        left.vars.as_slice(),
    )?;
    let mut planned_formats = Items::new(alloc);
    planned_formats.push(format)?;
    let mut tensors = Items::new(alloc);
    let name = copy_name(alloc, &statement.tensors.as_slice()[0])?;
    tensors.push(name)?;
    let vars = copy_names(alloc, statement.vars.as_slice())?;
    let left = copy_access(alloc, left)?;
    let sums = copy_sums(alloc, statement.sums.as_slice())?;
    let expr = copy_expr(alloc, &statement.expr)?;
    Ok(Planned {
        statement: Statement::new(
            tensors,
            vars,
            left,
            statement.accumulate,
            Items::new(alloc),
            sums,
            expr,
        ),
        formats: planned_formats,
        origins: Items::new(alloc),
    })
}

/// The tensor that stores the entries of this one in this format, if there is one so far.
fn tensor_of(origins: &[usize], formats: &[Format], origin: usize, format: &Format) -> Option<usize>
    requires { length formats.now ≡ length origins.now + 1 }
    ensures { MatchOption result
        ((tensor : ℕ) → IsStoredAs origins.now formats.now origin format.now tensor → ⊥)
        (IsStoredAs origins.now formats.now origin format.now) }
{
    for place in 0..origins.len() {
        if origins[place] == origin && is_same(&formats[place + 1], format) {
            return Some(place + 1);
        }
    }
    None
}

/// Appends a tensor of this name, which stores the entries of this one in this format.
fn put_tensor(
    plan: &mut Planned,
    name: Name,
    origin: usize,
    format: Format,
) -> Result<(), AllocError>
    ensures { OnOk result (plan.new ≡ record {
      statement = record plan.old.statement { tensors = plan.old.statement.tensors ++ name ∷ [] };
      formats = plan.old.formats ++ format ∷ [];
      origins = plan.old.origins ++ origin ∷ [];
    }) }
{
    plan.statement.tensors.push(name)?;
    plan.formats.push(format)?;
    plan.origins.push(origin)
}

/// Appends an access to a tensor, with the variables of another.
fn put_access(
    plan: &mut Planned,
    alloc: Global,
    tensor: usize,
    access: &Access,
) -> Result<(), AllocError>
    ensures { OnOk result (plan.new ≡ record plan.old {
      statement = record plan.old.statement {
        accesses = plan.old.statement.accesses ++ record { tensor = tensor; vars = access.now.vars } ∷ [];
      };
    }) }
{
    let vars = Items::from_slice(alloc, access.vars.as_slice())?;
    plan.statement.accesses.push(Access { tensor, vars })
}

/// Plans one access more.
fn plan_access(
    plan: &mut Planned,
    alloc: Global,
    statement: &Statement,
    formats: &[Format],
    access: &Access,
) -> Result<(), AllocError>
    requires numbered { IsAccess (length statement.now.tensors) (length statement.now.vars) access.now }
    requires once { IsDistinct access.now.vars }
    requires format { HasFormat formats.now access.now }
    requires many { length plan.old.formats ≡ length plan.old.origins + 1 }
    ensures { OnOk result ((given : List AnAccess) → IsPlannedOf statement.now formats.now given plan.old
        → IsPlannedOf statement.now formats.now (given ++ access.now ∷ []) plan.new) }
{
    let format = planned_format(
        alloc,
        statement.vars.len(),
        &formats[access.tensor],
        access.vars.as_slice(),
    )?;
    let found = tensor_of(
        plan.origins.as_slice(),
        plan.formats.as_slice(),
        access.tensor,
        &format,
    );
    if let Some(tensor) = found {
        return put_access(plan, alloc, tensor, access);
    }
    let tensor = plan.formats.len();
    let name = copy_name(alloc, &statement.tensors.as_slice()[access.tensor])?;
    put_tensor(plan, name, access.tensor, format)?;
    put_access(plan, alloc, tensor, access)
}

/// The planned statement of all accesses.
fn plan_accesses(
    alloc: Global,
    statement: &Statement,
    formats: &[Format],
) -> Result<Planned, AllocError>
    requires numbered { IsNumberedWithSums statement.now }
    requires named { IsWellNamed statement.now }
    requires left { HasFormat formats.now statement.now.left }
    requires right { Each (HasFormat formats.now) statement.now.accesses }
    ensures { IfOk result (IsPlanned statement.now formats.now) }
{
    let mut plan = begin(alloc, statement, formats)?;
    for access in statement.accesses.as_slice() {
        plan_access(&mut plan, alloc, statement, formats, access)?;
    }
    Ok(plan)
}

/// The statement that is run in place of one whose storage orders have a cycle, and none where its loops have an order: each access, the
/// result's included, under whose format an edge leads from a later variable of the standing order to an earlier one is stored with the
/// same letters and its modes in the standing order of its variables. Its loops have an order. Refused only for want of memory.
pub fn plan_statement(
    alloc: Global,
    statement: &Statement,
    formats: &[Format],
) -> Result<Option<Planned>, AllocError>
    requires numbered { IsNumberedWithSums statement.now }
    requires named { IsWellNamed statement.now }
    requires left { HasFormat formats.now statement.now.left }
    requires right { Each (HasFormat formats.now) statement.now.accesses }
    ensures answers { IfOk result (Answers statement.now formats.now) }
    ensures compiled { IfOk result (λ answer. IfSome answer (λ plan. CanBeCompiled plan.statement plan.formats)) }
    ensures origins { IfOk result (λ answer. IfSome answer (AreOrigins statement.now)) }
{
    let edges = edges(alloc, statement, formats)?;
    match order(alloc, statement.vars.len(), edges.as_slice()) {
        Ok(_) => Ok(None),
        Err(OrderFault::Cycle(_)) => {
            let plan = plan_accesses(alloc, statement, formats)?;
            Ok(Some(plan))
        }
        Err(OrderFault::Memory(error)) => Err(error),
    }
}
