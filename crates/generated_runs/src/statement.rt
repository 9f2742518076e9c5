//! The statement of the workload, and the formats of its tensors.
ghost use Rattle.std.specs.Prelude.{◌≡◌, ◌∷◌, [], IfOk, map};
ghost use Rattle.generated_runs.specs.Workloads.{letter_name, matrix_at, workload_statement, by_rows, workload_formats};

use format_spec::{Format, parse_format};
use index_notation::{Access, Expr, Name, Operator, Statement, binary};
use std::alloc::{AllocError, Global};
use trees::Items;

/// A name for each letter. Refused only for want of memory.
fn letter_names(alloc: Global, letters: &[u8]) -> Result<Items<Name>, AllocError>
    ensures { IfOk result (λ names. names ≡ map letter_name letters.now) }
{
    let mut names = Items::new(alloc);
    for letter in letters {
        let bytes = Items::from_slice(alloc, &[*letter])?;
        names.push(Name { bytes })?;
    }
    Ok(names)
}

/// A matrix at row i and column j. Refused only for want of memory.
fn matrix_at(alloc: Global, tensor: usize) -> Result<Access, AllocError>
    ensures { IfOk result (λ access. access ≡ matrix_at tensor) }
{
    let vars = Items::from_slice(alloc, &[0, 1])?;
    Ok(Access { tensor, vars })
}

/// The operands at row i and column j. Refused only for want of memory.
fn operands_at(alloc: Global) -> Result<Items<Access>, AllocError>
    ensures { IfOk result (λ accesses. accesses ≡ matrix_at 1 ∷ matrix_at 2 ∷ matrix_at 3 ∷ []) }
{
    let mut accesses = Items::new(alloc);
    accesses.push(matrix_at(alloc, 1)?)?;
    accesses.push(matrix_at(alloc, 2)?)?;
    accesses.push(matrix_at(alloc, 3)?)?;
    Ok(accesses)
}

/// The right side: the product of the first two accesses, and the third. Refused only for want of memory.
fn right_side(alloc: Global) -> Result<Expr, AllocError>
    ensures { IfOk result (λ expr. expr
        ≡ Expr.Binary Operator.Add (Expr.Binary Operator.Mul (Expr.Access 0) (Expr.Access 1)) (Expr.Access 2)) }
{
    let product = binary(alloc, Operator::Mul, Expr::Access(0), Expr::Access(1))?;
    let right = binary(alloc, Operator::Add, product, Expr::Access(2))?;
    Ok(right)
}

/// `A(i,j) = B(i,j) * C(i,j) + D(i,j)`. Refused only for want of memory.
#[tactic(auto, unfolding(crate::specs::Workloads::workload_statement))]
pub(crate) fn workload_statement(alloc: Global) -> Result<Statement, AllocError>
    ensures { IfOk result (λ statement. statement ≡ workload_statement) }
{
    let tensors = letter_names(alloc, b"ABCD")?;
    let vars = letter_names(alloc, b"ij")?;
    let left = matrix_at(alloc, 0)?;
    let accesses = operands_at(alloc)?;
    let sums = Items::new(alloc);
    let expr = right_side(alloc)?;
    Ok(Statement::new(tensors, vars, left, false, accesses, sums, expr))
}

/// The format `ds`.
#[tactic(auto, unfolding(limits::specs::Limits::greatest_order))]
fn by_rows(alloc: Global) -> Format
    ensures { result ≡ by_rows }
{
    match parse_format(alloc, "ds", None, 2) {
        Ok(format) => format,
        Err(_) => unreachable!(),
    }
}

/// The format of each tensor. Refused only for want of memory.
#[tactic(auto, unfolding(crate::specs::Workloads::workload_formats))]
pub(crate) fn workload_formats(alloc: Global) -> Result<Vec<Format>, AllocError>
    ensures { IfOk result (λ formats. formats.items ≡ workload_formats) }
{
    let mut formats = Vec::new(alloc);
    formats.push(by_rows(alloc))?;
    formats.push(by_rows(alloc))?;
    formats.push(by_rows(alloc))?;
    formats.push(by_rows(alloc))?;
    Ok(formats)
}
