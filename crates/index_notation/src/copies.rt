//! Copies of a statement and of its lists.
ghost use Rattle.std.specs.Prelude.{◌≡◌, IfOk};

use crate::syntax::{
    Access, Name, NestedSum, Statement, copy_access, copy_expr, copy_name, copy_sum,
};
use std::alloc::{AllocError, Global};
use trees::Items;

/// A list of equal names. Refused only for want of memory.
pub fn copy_names(alloc: Global, names: &[Name]) -> Result<Items<Name>, AllocError>
    ensures { IfOk result (λ copies. copies ≡ names.now) }
{
    let mut copies = Items::new(alloc);
    for name in names {
        copies.push(copy_name(alloc, name)?)?;
    }
    Ok(copies)
}

/// A list of equal accesses. Refused only for want of memory.
fn copy_accesses(alloc: Global, accesses: &[Access]) -> Result<Items<Access>, AllocError>
    ensures { IfOk result (λ copies. copies ≡ accesses.now) }
{
    let mut copies = Items::new(alloc);
    for access in accesses {
        copies.push(copy_access(alloc, access)?)?;
    }
    Ok(copies)
}

/// A list of equal nested sums. Refused only for want of memory.
pub fn copy_sums(alloc: Global, sums: &[NestedSum]) -> Result<Items<NestedSum>, AllocError>
    ensures { IfOk result (λ copies. copies ≡ sums.now) }
{
    let mut copies = Items::new(alloc);
    for sum in sums {
        copies.push(copy_sum(alloc, sum)?)?;
    }
    Ok(copies)
}

/// An equal statement. Refused only for want of memory.
pub fn copy_statement(alloc: Global, statement: &Statement) -> Result<Statement, AllocError>
    ensures { IfOk result (λ copy. copy ≡ statement.now) }
{
    let tensors = copy_names(alloc, statement.tensors.as_slice())?;
    let vars = copy_names(alloc, statement.vars.as_slice())?;
    let left = copy_access(alloc, &statement.left)?;
    let accesses = copy_accesses(alloc, statement.accesses.as_slice())?;
    let sums = copy_sums(alloc, statement.sums.as_slice())?;
    let expr = copy_expr(alloc, &statement.expr)?;
    let accumulate = statement.accumulate;
    Ok(Statement::new(tensors, vars, left, accumulate, accesses, sums, expr))
}
