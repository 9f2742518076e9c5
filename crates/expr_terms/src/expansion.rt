//! The statement that one with `+=` stands for.
ghost use Rattle.std.specs.Prelude.{◌≡◌, ◌<◌, ◌+◌, ◌^◌, ◌++◌, IfOk, OnOk, length, map};
ghost use Rattle.lists.specs.Each.{Each};
ghost use Rattle.index_notation.specs.Statement.{AccessesUnder, AreSums, IsNumberedWithSums};
ghost use Rattle.expr_terms.specs.Expanded.{moved as moved_behind, moved_access as moved_access_behind};
ghost use Rattle.expr_terms.specs.Expanded.{moved_sum as moved_sum_behind, names_with_old, accesses_with_old};
ghost use Rattle.expr_terms.specs.Expanded.{expr_with_old, expanded};

use index_notation::{Access, Expr, Name, NestedSum, Operator, Statement, binary, copy_name};
use std::alloc::{AllocError, Global};
use trees::{Boxed, Items};

/// The names, with that of the first once more before them.
fn old_name(alloc: Global, names: &[Name]) -> Result<Items<Name>, AllocError>
    ensures { IfOk result (λ all. all ≡ names_with_old names.now) }
{
    let mut all = Items::new(alloc);
    if let Some((result, _)) = names.split_first() {
        all.push(copy_name(alloc, result)?)?;
    }
    for name in names {
        all.push(copy_name(alloc, name)?)?;
    }
    Ok(all)
}

/// An access to the tensor behind its own.
fn moved_access(alloc: Global, access: &Access, tensors: usize) -> Result<Access, AllocError>
    requires { access.now.tensor < tensors }
    ensures { IfOk result (λ moved. moved ≡ moved_access_behind access.now) }
{
    let vars = Items::from_slice(alloc, access.vars.as_slice())?;
    Ok(Access {
        tensor: access.tensor + 1,
        vars,
    })
}

/// The access of the old tensor, and the others behind it.
fn old_access(
    alloc: Global,
    vars: &[usize],
    accesses: &[Access],
    tensors: usize,
) -> Result<Items<Access>, AllocError>
    requires { Each (λ access. access.tensor < tensors) accesses.now }
    ensures { IfOk result (λ all. all ≡ accesses_with_old vars.now accesses.now) }
{
    let mut all = Items::new(alloc);
    let vars = Items::from_slice(alloc, vars)?;
    all.push(Access { tensor: 1, vars })?;
    for access in accesses {
        all.push(moved_access(alloc, access, tensors)?)?;
    }
    Ok(all)
}

/// An expression over accesses behind one more.
fn moved(alloc: Global, expr: &Expr, accesses: usize) -> Result<Expr, AllocError>
    requires { AccessesUnder accesses expr.now }
    ensures { IfOk result (λ moved. moved ≡ moved_behind expr.now) }
{
    match expr {
        Expr::Num(n) => Ok(Expr::Num(*n)),
        Expr::Access(n) => Ok(Expr::Access(*n + 1)),
        Expr::Binary(operator, first, second) => {
            let first = moved(alloc, first.get(), accesses)?;
            let second = moved(alloc, second.get(), accesses)?;
            binary(alloc, *operator, first, second)
        }
        Expr::Neg(inner) => {
            let inner = moved(alloc, inner.get(), accesses)?;
            Ok(Expr::Neg(Boxed::new(alloc, inner)?))
        }
    }
}

/// Puts nested sums, of which the first has this number, over accesses behind one more at the end of a list.
fn push_sums(
    alloc: Global,
    sums: &[NestedSum],
    vars: usize,
    number: usize,
    all: &mut Items<NestedSum>,
) -> Result<(), AllocError>
    requires sums { AreSums vars number sums.now }
    requires fits { number + length sums.now < 2 ^ 64 }
    ensures { OnOk result (all.new ≡ all.old ++ map moved_sum_behind sums.now) }
{
    let Some((first, others)) = sums.split_first() else {
        return Ok(());
    };
    let inside = moved(alloc, &first.inside, number)?;
    all.push(NestedSum {
        var: first.var,
        inside,
    })?;
    push_sums(alloc, others, vars, number + 1, all)
}

/// The access of the old tensor, and an expression added to it.
fn old_term(alloc: Global, expr: &Expr, accesses: usize) -> Result<Expr, AllocError>
    requires { AccessesUnder accesses expr.now }
    ensures { IfOk result (λ whole. whole ≡ expr_with_old expr.now) }
{
    let moved = moved(alloc, expr, accesses)?;
    binary(alloc, Operator::Add, Expr::Access(0), moved)
}

/// The statement that a written one stands for. With `+=` its right side is the old tensor, with the left variables, and then what is
/// written; the old tensor is tensor 1, of the result's name. With `=` it is the statement itself. Refused only for want of memory.
#[tactic(auto, using(crate::proofs::ExpandLaws::with_old_numbered))]
pub fn expand(alloc: Global, statement: Statement) -> Result<Statement, AllocError>
    requires { IsNumberedWithSums statement }
    ensures whole { IfOk result (λ whole. whole ≡ expanded statement) }
    ensures numbered { IfOk result IsNumberedWithSums }
{
    if !statement.accumulate {
        return Ok(statement);
    }
    let Statement {
        tensors,
        vars,
        left,
        accesses,
        sums,
        expr,
        ..
    } = statement;
    let names = old_name(alloc, tensors.as_slice())?;
    let expr = old_term(alloc, &expr, accesses.len() + sums.len())?;
    let mut moved_sums = Items::new(alloc);
    push_sums(
        alloc,
        sums.as_slice(),
        vars.len(),
        accesses.len(),
        &mut moved_sums,
    )?;
    let accesses = old_access(
        alloc,
        left.vars.as_slice(),
        accesses.as_slice(),
        tensors.len(),
    )?;
    Ok(Statement::new(names, vars, left, false, accesses, moved_sums, expr))
}
