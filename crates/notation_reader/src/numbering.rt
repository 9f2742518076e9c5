// The statement of what was read: names, tensors and variables apart, are numbered by first appearance, and nested sums
// behind the accesses.
ghost use Rattle.std.specs.Prelude.{◌≡◌, ◌∷◌, List, length, map, IfOk};
ghost use Rattle.index_notation.specs.Numbering.{distinct, name_of, numbered};
ghost use Rattle.notation_grammar.specs.TreeStatement.{numbered_statement};
ghost use Rattle.index_notation.specs.declared.token.WrittenAccess.{WrittenAccess};
ghost use Rattle.notation_reader.specs.Sums.{rebased_number as rebased_number_by, rebased as rebased_by, numbered_sum};

use crate::builder::WrittenSum;
use crate::names::{add_name, place};
use crate::reader::Reading;
use index_notation::{Access, Expr, Name, NestedSum, Statement, WrittenAccess, binary};
use std::alloc::{AllocError, Global};
use trees::{Boxed, Items};

/// The names of tensors, in order of first appearance.
fn tensor_names(alloc: Global, accesses: &[WrittenAccess]) -> Result<Items<Name>, AllocError>
    ensures { IfOk result (λ names. names ≡ distinct (map name_of accesses.now)) }
{
    let mut names = Items::new(alloc);
    for access in accesses {
        add_name(alloc, &mut names, &access.name)?;
    }
    Ok(names)
}

/// An access by the numbers of its names.
fn number_access(
    alloc: Global,
    tensors: &[Name],
    vars: &[Name],
    access: &WrittenAccess,
) -> Result<Access, AllocError>
    ensures { IfOk result (λ found. found ≡ numbered tensors.now vars.now access.now) }
{
    let mut numbers = Items::new(alloc);
    for var in access.vars.as_slice() {
        numbers.push(place(vars, var))?;
    }
    Ok(Access {
        tensor: place(tensors, &access.name),
        vars: numbers,
    })
}

/// Accesses by the numbers of their names.
fn number_accesses(
    alloc: Global,
    tensors: &[Name],
    vars: &[Name],
    accesses: &[WrittenAccess],
) -> Result<Items<Access>, AllocError>
    ensures { IfOk result (λ found. found ≡ map (numbered tensors.now vars.now) accesses.now) }
{
    let mut found = Items::new(alloc);
    for access in accesses {
        found.push(number_access(alloc, tensors, vars, access)?)?;
    }
    Ok(found)
}

/// The number of an access or a nested sum, where there are so many accesses.
fn rebased_number(number: usize, count: usize) -> usize
    ensures { result ≡ rebased_number_by count number }
{
    let first_sum = limits::greatest_accesses_of_statement() as usize;
    if number < first_sum {
        number
    } else {
        number - first_sum.saturating_sub(count)
    }
}

/// An expression whose nested sums have the numbers behind those of so many accesses.
fn rebased(alloc: Global, expr: &Expr, count: usize) -> Result<Expr, AllocError>
    ensures { IfOk result (λ found. found ≡ rebased_by count expr.now) }
{
    match expr {
        Expr::Num(n) => Ok(Expr::Num(*n)),
        Expr::Access(n) => Ok(Expr::Access(rebased_number(*n, count))),
        Expr::Binary(operator, first, second) => {
            let first = rebased(alloc, first.get(), count)?;
            let second = rebased(alloc, second.get(), count)?;
            binary(alloc, *operator, first, second)
        }
        Expr::Neg(inner) => {
            let inner = rebased(alloc, inner.get(), count)?;
            Ok(Expr::Neg(Boxed::new(alloc, inner)?))
        }
    }
}

/// Nested sums by the numbers of their variables, behind so many accesses.
fn number_sums(
    alloc: Global,
    vars: &[Name],
    count: usize,
    sums: &[WrittenSum],
) -> Result<Items<NestedSum>, AllocError>
    ensures { IfOk result (λ found. found ≡ map (numbered_sum vars.now count) sums.now) }
{
    let mut found = Items::new(alloc);
    for sum in sums {
        let inside = rebased(alloc, &sum.inside, count)?;
        found.push(NestedSum {
            var: place(vars, &sum.var),
            inside,
        })?;
    }
    Ok(found)
}

/// The statement of what was read, whose right side may be added to the old tensor.
pub fn number_statement(
    alloc: Global,
    reading: Reading,
    accumulate: bool,
) -> Result<Statement, AllocError>
    requires { (left : WrittenAccess) × (right : List WrittenAccess) × (reading.accesses ≡ left ∷ right) }
    ensures { IfOk result (λ s. (left : WrittenAccess) (right : List WrittenAccess) → reading.accesses ≡ left ∷ right →
        s ≡ numbered_statement left accumulate reading.vars right
        (map (numbered_sum reading.vars (length right)) reading.sums) (rebased_by (length right) reading.expr)) }
{
    let Reading {
        accesses,
        vars,
        sums,
        expr,
    } = reading;
    let tensors = tensor_names(alloc, accesses.as_slice())?;
    let Some((left, right)) = accesses.as_slice().split_first() else {
        unreachable!()
    };
    let left = number_access(alloc, tensors.as_slice(), vars.as_slice(), left)?;
    let numbered = number_accesses(alloc, tensors.as_slice(), vars.as_slice(), right)?;
    let sums = number_sums(alloc, vars.as_slice(), right.len(), sums.as_slice())?;
    let expr = rebased(alloc, &expr, right.len())?;
    Ok(Statement::new(tensors, vars, left, accumulate, numbered, sums, expr))
}
