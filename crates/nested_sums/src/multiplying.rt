//! Statements that are multiplied out, so that every nested sum left in them is inner for the loop order.
ghost use Rattle.std.specs.Prelude.{◌≡◌, ◌+◌, ◌<◌, ◌^◌, [], ◌++◌, if◌then◌else◌, length, map, IfOk, OnOk};
ghost use Rattle.std.specs.List.{list_all};
ghost use Rattle.index_notation.specs.Statement.{IsNumberedWithSums, numbers_from};
ghost use Rattle.expr_terms.specs.Nested.{flat as flat_of};
ghost use Rattle.nested_sums.specs.Bound.{HasNoBadSum};
ghost use Rattle.nested_sums.specs.Inner.{is_inner};
ghost use Rattle.nested_sums.specs.Pieces.{opened_sums};
ghost use Rattle.nested_sums.specs.Support.{KeepsSupport};
ghost use Rattle.nested_sums.specs.Multiplied.{final_term, unit_leaf, added, sum_of_terms};
ghost use Rattle.nested_sums.specs.Multiplied.{term_pieces, all_sums, multiplied_out, multiplied};
ghost use Rattle.nested_sums.specs.Multiplied.{KeepsValue, KeepsRest, HasInnerSums, KeepsNoMinus};

use crate::cutting::push_pieces_of_terms;
use crate::inner_sums::inner;
use crate::opening::{Opened, Piece, push_opened};
use crate::units::{lacking, missing, push_kept, push_units, with_units};
use expr_terms::{Term, flat, terms};
use index_notation::{Expr, NestedSum, Operator, Statement, binary, copy_expr, copy_statement};
use numbers::Semiring;
use std::alloc::{AllocError, Global};
use trees::{Boxed, Items};

/// A piece as a term, with a unit for each variable that it lacks. `flat` is the statement that reads its nested sums as tensors, and
/// `count` the number of its accesses without them.
fn final_term(
    alloc: Global,
    statement: &Statement,
    flat: &Statement,
    count: usize,
    one: u64,
    sums: &[NestedSum],
    piece: &Piece,
) -> Result<Term, AllocError>
    requires flat { flat.now ≡ flat_of statement.now }
    requires count { count ≡ length statement.now.accesses }
    requires few { count + length sums.now < 2 ^ 64 }
    ensures { IfOk result (λ term. term ≡ final_term statement.now (unit_leaf one statement.now sums.now) piece.now) }
{
    let vars = lacking(alloc, flat.accesses.as_slice(), piece)?;
    let factors = copy_expr(alloc, &piece.factors)?;
    let expr = with_units(alloc, count, one, sums, factors, vars.as_slice())?;
    Ok(Term {
        negated: piece.negated,
        expr,
    })
}

/// Puts pieces as terms, with a unit for each variable that one lacks, at the end of a list.
fn push_finals(
    alloc: Global,
    statement: &Statement,
    flat: &Statement,
    count: usize,
    one: u64,
    sums: &[NestedSum],
    pieces: &[Piece],
    list: &mut Items<Term>,
) -> Result<(), AllocError>
    requires flat { flat.now ≡ flat_of statement.now }
    requires count { count ≡ length statement.now.accesses }
    requires few { count + length sums.now < 2 ^ 64 }
    ensures { OnOk result (list.new ≡ list.old ++ map (final_term statement.now (unit_leaf one statement.now sums.now)) pieces.now) }
{
    let Some((first, others)) = pieces.split_first() else {
        return Ok(());
    };
    list.push(final_term(alloc, statement, flat, count, one, sums, first)?)?;
    push_finals(alloc, statement, flat, count, one, sums, others, list)
}

/// By which operator a term is put behind others.
fn operator_of(negated: bool) -> Operator
    ensures { result ≡ (if negated then Operator.Sub else Operator.Add) }
{
    if negated {
        Operator::Sub
    } else {
        Operator::Add
    }
}

/// An expression, negated where `negated` says so.
fn first_expr(alloc: Global, negated: bool, expr: Expr) -> Result<Expr, AllocError>
    ensures { IfOk result (λ whole. whole ≡ (if negated then Expr.Neg expr else expr)) }
{
    if negated {
        let inner = Boxed::new(alloc, expr)?;
        return Ok(Expr::Neg(inner));
    }
    Ok(expr)
}

/// An expression with terms behind it, added or taken away.
fn added(alloc: Global, expr: Expr, terms: &[Term]) -> Result<Expr, AllocError>
    ensures { IfOk result (λ whole. whole ≡ added expr terms.now) }
{
    let Some((first, others)) = terms.split_first() else {
        return Ok(expr);
    };
    let second = copy_expr(alloc, &first.expr)?;
    let both = binary(alloc, operator_of(first.negated), expr, second)?;
    added(alloc, both, others)
}

/// The sum of terms, zero where there are none.
fn sum_of_terms(alloc: Global, terms: &[Term]) -> Result<Expr, AllocError>
    ensures { IfOk result (λ whole. whole ≡ sum_of_terms terms.now) }
{
    let Some((first, others)) = terms.split_first() else {
        return Ok(Expr::Num(0));
    };
    let copy = copy_expr(alloc, &first.expr)?;
    let whole = first_expr(alloc, first.negated, copy)?;
    added(alloc, whole, others)
}

/// The sums of a statement that aren't inner, opened.
fn open_sums(
    alloc: Global,
    statement: &Statement,
    order: &[usize],
) -> Result<Items<Opened>, AllocError>
    ensures { IfOk result (λ opened. opened
        ≡ opened_sums (is_inner statement.now order.now) (length statement.now.accesses) 0 [] statement.now.sums) }
{
    let mut opened = Items::new(alloc);
    let accesses = statement.accesses.as_slice();
    let sums = statement.sums.as_slice();
    push_opened(
        alloc,
        statement,
        order,
        sums,
        accesses.len(),
        0,
        &mut opened,
    )?;
    Ok(opened)
}

/// The pieces of a statement's terms.
fn term_pieces(
    alloc: Global,
    statement: &Statement,
    flat: &Statement,
    order: &[usize],
) -> Result<Items<Piece>, AllocError>
    requires { flat.now ≡ flat_of statement.now }
    ensures { IfOk result (λ pieces. pieces ≡ term_pieces statement.now order.now) }
{
    let opened = open_sums(alloc, statement, order)?;
    let whole = terms(alloc, &statement.expr)?;
    let mut list = Items::new(alloc);
    push_pieces_of_terms(
        alloc,
        statement,
        flat,
        opened.as_slice(),
        whole.as_slice(),
        &mut list,
    )?;
    Ok(list)
}

/// The sums in their places, and behind them the units that the pieces want.
fn all_sums(
    alloc: Global,
    statement: &Statement,
    flat: &Statement,
    order: &[usize],
    one: u64,
    pieces: &[Piece],
) -> Result<Items<NestedSum>, AllocError>
    requires flat { flat.now ≡ flat_of statement.now }
    requires pieces { pieces.now ≡ term_pieces statement.now order.now }
    ensures { IfOk result (λ sums. sums ≡ all_sums one statement.now order.now) }
{
    let mut sums = Items::new(alloc);
    let list = statement.sums.as_slice();
    push_kept(alloc, statement, order, one, list, 0, &mut sums)?;
    let vars = statement.vars.len();
    let accesses = flat.accesses.as_slice();
    let wanted = missing(alloc, vars, accesses, one, sums.as_slice(), pieces)?;
    push_units(alloc, one, wanted.as_slice(), &mut sums)?;
    Ok(sums)
}

/// The sum of pieces as terms, each with a unit for each variable that it lacks.
fn expr_of_pieces(
    alloc: Global,
    statement: &Statement,
    flat: &Statement,
    one: u64,
    sums: &[NestedSum],
    pieces: &[Piece],
) -> Result<Expr, AllocError>
    requires { flat.now ≡ flat_of statement.now }
    ensures { IfOk result (λ expr. expr
        ≡ sum_of_terms (map (final_term statement.now (unit_leaf one statement.now sums.now)) pieces.now)) }
{
    let mut list = Items::new(alloc);
    let accesses = statement.accesses.as_slice();
    push_finals(
        alloc,
        statement,
        flat,
        accesses.len(),
        one,
        sums,
        pieces,
        &mut list,
    )?;
    sum_of_terms(alloc, list.as_slice())
}

/// The statement whose terms are the pieces.
fn multiplied_out(
    alloc: Global,
    one: u64,
    statement: Statement,
    order: &[usize],
) -> Result<Statement, AllocError>
    requires { IsNumberedWithSums statement }
    ensures { IfOk result (λ out. out ≡ multiplied_out one statement order.now) }
{
    let copy = copy_statement(alloc, &statement)?;
    let read = flat(alloc, copy)?;
    let pieces = term_pieces(alloc, &statement, &read, order)?;
    let sums = all_sums(alloc, &statement, &read, order, one, pieces.as_slice())?;
    let expr = expr_of_pieces(
        alloc,
        &statement,
        &read,
        one,
        sums.as_slice(),
        pieces.as_slice(),
    )?;
    let Statement {
        tensors,
        vars,
        left,
        accumulate,
        accesses,
        ..
    } = statement;
    Ok(Statement::new(tensors, vars, left, accumulate, accesses, sums, expr))
}

/// Whether each sum is inner.
fn all_inner(statement: &Statement, order: &[usize]) -> bool
    ensures { result ≡ list_all (is_inner statement.now order.now) (numbers_from 0 (length statement.now.sums)) }
{
    for sum in 0..statement.sums.len() {
        if !inner(statement, order, sum) {
            return false;
        }
    }
    true
}

/// The statement multiplied out, where it isn't so already.
fn multiplied(
    alloc: Global,
    one: u64,
    statement: Statement,
    order: &[usize],
) -> Result<Statement, AllocError>
    requires { IsNumberedWithSums statement }
    ensures { IfOk result (λ out. out ≡ multiplied one statement order.now) }
{
    if all_inner(&statement, order) {
        return Ok(statement);
    }
    multiplied_out(alloc, one, statement, order)
}

/// The same, and what it keeps.
#[tactic(auto, using(crate::proofs::MultipliedValue::keeps_numbers, crate::proofs::MultipliedValue::keeps_rest))]
fn multiplied_by(
    alloc: Global,
    one: u64,
    statement: Statement,
    order: &[usize],
) -> Result<Statement, AllocError>
    requires numbered { IsNumberedWithSums statement }
    requires clear { HasNoBadSum statement }
    ensures is { IfOk result (λ out. out ≡ multiplied one statement order.now) }
    ensures value { IfOk result (KeepsValue one statement) }
    ensures support { IfOk result (KeepsSupport statement) }
    ensures meant { IfOk result (KeepsNoMinus statement) }
    ensures numbered { IfOk result IsNumberedWithSums }
    ensures rest { IfOk result (KeepsRest statement) }
    ensures inner { IfOk result (HasInnerSums order.now) }
{
    multiplied(alloc, one, statement, order)
}

/// The statement multiplied out, so that every nested sum is inner for a loop order: products are distributed over sums and differences
/// until each sum that isn't inner is a whole term or a factor of one, and its variable then is an own variable of the term. A term that
/// thereby lacks a variable over which it was summed gets as a factor the sum of a one for each coordinate of that variable. Sums keep
/// their numbers: in the place of one that isn't inner stands such a sum over its variable, and behind them stand others that are
/// wanted. `order` has the variables by their numbers, the outermost loop first; tensors, variables and accesses stay, so it stays a
/// loop order. Refused only for want of memory.
pub fn multiply_out<S: Semiring>(
    alloc: Global,
    statement: Statement,
    order: &[usize],
) -> Result<Statement, AllocError>
    requires numbered { IsNumberedWithSums statement }
    requires clear { HasNoBadSum statement }
    ensures is { IfOk result (λ out. out ≡ multiplied S.arithmetic.one statement order.now) }
    ensures value { IfOk result (KeepsValue S.arithmetic.one statement) }
    ensures support { IfOk result (KeepsSupport statement) }
    ensures meant { IfOk result (KeepsNoMinus statement) }
    ensures numbered { IfOk result IsNumberedWithSums }
    ensures rest { IfOk result (KeepsRest statement) }
    ensures inner { IfOk result (HasInnerSums order.now) }
{
    multiplied_by(alloc, S::one(), statement, order)
}
