//! The statement that reads each of its nested sums as a tensor.
ghost use Rattle.std.specs.Prelude.{◌≡◌, ◌+◌, ◌<◌, ◌^◌, length, IfOk, OnOk};
ghost use Rattle.index_notation.specs.Numbering.{sum_name as name_of_a_sum};
ghost use Rattle.index_notation.specs.Statement.{IsNumbered, IsNumberedWithSums, IsWellNamed};
ghost use Rattle.expr_terms.specs.Nested.{is_free, free_in, sum_access, accesses_with, names_with, flat as flat_of};

use crate::term::stands_in;
use index_notation::{Access, Name, NestedSum, Statement};
use std::alloc::{AllocError, Global};
use trees::Items;

/// Whether a variable is free in a sum over these accesses.
fn is_free(accesses: &[Access], sum: &NestedSum, var: usize) -> bool
    ensures { result ≡ is_free accesses.now sum.now var }
{
    stands_in(accesses, var, &sum.inside) && var != sum.var
}

/// A sum over these accesses as an access to a tensor of the variables, of so many, that are free in it.
fn sum_access(
    alloc: Global,
    vars: usize,
    accesses: &[Access],
    tensor: usize,
    sum: &NestedSum,
) -> Result<Access, AllocError>
    ensures { IfOk result (λ access. access ≡ sum_access vars accesses.now tensor sum.now) }
{
    let mut free = Items::new(alloc);
    for var in 0..vars {
        if is_free(accesses, sum, var) {
            free.push(var)?;
        }
    }
    Ok(Access { tensor, vars: free })
}

/// Puts sums, as accesses to tensors from this one on, behind accesses.
fn push_sums(
    alloc: Global,
    vars: usize,
    tensor: usize,
    sums: &[NestedSum],
    accesses: &mut Items<Access>,
) -> Result<(), AllocError>
    requires { tensor + length sums.now < 2 ^ 64 }
    ensures { OnOk result (accesses.new ≡ accesses_with vars accesses.old tensor sums.now) }
{
    let Some((first, others)) = sums.split_first() else {
        return Ok(());
    };
    let access = sum_access(alloc, vars, accesses.as_slice(), tensor, first)?;
    accesses.push(access)?;
    push_sums(alloc, vars, tensor + 1, others, accesses)
}

/// The name of nested sums.
fn name_of_sums(alloc: Global) -> Result<Name, AllocError>
    ensures { IfOk result (λ name. name ≡ name_of_a_sum) }
{
    let bytes = Items::from_slice(alloc, b"sum")?;
    Ok(Name { bytes })
}

/// Puts a name for each sum behind names.
fn push_names(alloc: Global, sums: &[NestedSum], names: &mut Items<Name>) -> Result<(), AllocError>
    ensures { OnOk result (names.new ≡ names_with names.old sums.now) }
{
    let Some((_, others)) = sums.split_first() else {
        return Ok(());
    };
    names.push(name_of_sums(alloc)?)?;
    push_names(alloc, others, names)
}

/// The statement that reads each of its nested sums as a tensor of the variables that are free in it: its accesses are those of the
/// statement, and behind them one for each sum, so that no nested sum stands in its expression. Refused only for want of memory.
#[tactic(auto, using(crate::proofs::NestedLaws::flat_numbered, crate::proofs::NestedLaws::flat_named))]
pub fn flat(alloc: Global, statement: Statement) -> Result<Statement, AllocError>
    requires { IsNumberedWithSums statement }
    ensures flat { IfOk result (λ flat. flat ≡ flat_of statement) }
    ensures numbered { IfOk result IsNumbered }
    ensures named { IsWellNamed statement → IfOk result IsWellNamed }
{
    let Statement {
        mut tensors,
        vars,
        left,
        accumulate,
        mut accesses,
        sums,
        expr,
    } = statement;
    let list = sums.as_slice();
    push_sums(alloc, vars.len(), tensors.len(), list, &mut accesses)?;
    push_names(alloc, list, &mut tensors)?;
    Ok(Statement::new(tensors, vars, left, accumulate, accesses, sums, expr))
}
