//! The sums of a statement that is multiplied out: inner ones stay in their places, and each variable over which a piece is summed without
//! standing in it has a unit, the sum of a one for each of its coordinates.
ghost use Rattle.std.specs.Prelude.{◌≡◌, ◌+◌, ◌<◌, ◌≤◌, ◌^◌, ◌++◌, if◌then◌else◌, length, map, filter};
ghost use Rattle.std.specs.Prelude.{not, ◌&&◌, true, false, IfOk, OnOk};
ghost use Rattle.std.specs.List.{list_any};
ghost use Rattle.expr_terms.specs.Terms.{contains, stands_in};
ghost use Rattle.nested_sums.specs.Inner.{is_inner};
ghost use Rattle.nested_sums.specs.Multiplied.{unit_sum, is_number, is_unit, kept_sums, lacking, missing, place_of_unit, with_units};

use crate::inner_sums::{has_number, inner};
use crate::opening::Piece;
use expr_terms::stands_in;
use index_notation::{Access, Expr, NestedSum, Operator, Statement, binary, copy_sum};
use std::alloc::{AllocError, Global};
use trees::Items;

/// The sum of a one for each coordinate of a variable.
fn unit_sum(one: u64, var: usize) -> NestedSum
    ensures { result ≡ unit_sum one var }
{
    NestedSum {
        var,
        inside: Expr::Num(one),
    }
}

/// Whether an expression is a number.
fn is_number(number: u64, expr: &Expr) -> bool
    ensures { result ≡ is_number number expr.now }
{
    match expr {
        Expr::Num(n) => *n == number,
        Expr::Access(_) | Expr::Binary(_, _, _) | Expr::Neg(_) => false,
    }
}

/// Whether a sum is the unit of a variable.
fn is_unit(one: u64, var: usize, sum: &NestedSum) -> bool
    ensures { result ≡ is_unit one var sum.now }
{
    sum.var == var && is_number(one, &sum.inside)
}

/// Whether one of these sums is the unit of a variable.
fn have_unit(one: u64, var: usize, sums: &[NestedSum]) -> bool
    ensures { result ≡ list_any (is_unit one var) sums.now }
{
    let Some((first, others)) = sums.split_first() else {
        return false;
    };
    is_unit(one, var, first) || have_unit(one, var, others)
}

/// The place of the first unit of a variable among sums, or their number.
fn place_of_unit(one: u64, var: usize, sums: &[NestedSum]) -> usize
    ensures place { result ≡ place_of_unit one var sums.now }
    ensures within { result ≤ length sums.now }
{
    let Some((first, others)) = sums.split_first() else {
        return 0;
    };
    if is_unit(one, var, first) {
        return 0;
    }
    place_of_unit(one, var, others) + 1
}

/// What stands in a sum's place: the sum where it is inner, or else a unit of its variable.
fn kept_sum(
    alloc: Global,
    statement: &Statement,
    order: &[usize],
    one: u64,
    number: usize,
    sum: &NestedSum,
) -> Result<NestedSum, AllocError>
    requires { number < length statement.now.sums }
    ensures { IfOk result (λ kept. kept ≡ (if is_inner statement.now order.now number then sum.now else unit_sum one sum.now.var)) }
{
    if inner(statement, order, number) {
        return copy_sum(alloc, sum);
    }
    Ok(unit_sum(one, sum.var))
}

/// Puts what stands in the places of the last sums, from this number on, at the end of a list.
pub(crate) fn push_kept(
    alloc: Global,
    statement: &Statement,
    order: &[usize],
    one: u64,
    sums: &[NestedSum],
    number: usize,
    list: &mut Items<NestedSum>,
) -> Result<(), AllocError>
    requires last { number + length sums.now ≡ length statement.now.sums }
    requires few { length statement.now.sums < 2 ^ 64 }
    ensures { OnOk result (list.new ≡ list.old ++ kept_sums (is_inner statement.now order.now) one number sums.now) }
{
    let Some((first, others)) = sums.split_first() else {
        return Ok(());
    };
    list.push(kept_sum(alloc, statement, order, one, number, first)?)?;
    push_kept(alloc, statement, order, one, others, number + 1, list)
}

/// Puts those of these variables that don't stand in an expression at the end of a list.
fn push_absent(
    alloc: Global,
    accesses: &[Access],
    expr: &Expr,
    vars: &[usize],
    list: &mut Items<usize>,
) -> Result<(), AllocError>
    ensures { OnOk result (list.new ≡ list.old ++ filter (λ v. not (stands_in accesses.now v expr.now)) vars.now) }
{
    let Some((first, others)) = vars.split_first() else {
        return Ok(());
    };
    if stands_in(accesses, *first, expr) {
        return push_absent(alloc, accesses, expr, others, list);
    }
    list.push(*first)?;
    push_absent(alloc, accesses, expr, others, list)
}

/// Over which of its variables a piece is summed though they don't stand in it.
pub(crate) fn lacking(
    alloc: Global,
    accesses: &[Access],
    piece: &Piece,
) -> Result<Items<usize>, AllocError>
    ensures { IfOk result (λ list. list ≡ lacking accesses.now piece.now) }
{
    let mut list = Items::new(alloc);
    push_absent(
        alloc,
        accesses,
        &piece.factors,
        piece.over.as_slice(),
        &mut list,
    )?;
    Ok(list)
}

/// Whether a piece lacks a variable over which it is summed.
fn lacks(accesses: &[Access], var: usize, piece: &Piece) -> bool
    ensures { result ≡ contains (lacking accesses.now piece.now) var }
{
    let stands = stands_in(accesses, var, &piece.factors);
    let over = piece.over.as_slice();
    if stands {
        return false;
    }
    has_number(over, var)
}

/// Whether some piece lacks a variable over which it is summed.
fn some_lacks(accesses: &[Access], var: usize, pieces: &[Piece]) -> bool
    ensures { result ≡ list_any (λ piece. contains (lacking accesses.now piece) var) pieces.now }
{
    let Some((first, others)) = pieces.split_first() else {
        return false;
    };
    lacks(accesses, var, first) || some_lacks(accesses, var, others)
}

/// Whether some piece lacks a variable of which none of these sums is the unit.
fn is_missing(
    accesses: &[Access],
    one: u64,
    kept: &[NestedSum],
    pieces: &[Piece],
    var: usize,
) -> bool
    ensures { result ≡ (list_any (λ piece. contains (lacking accesses.now piece) var) pieces.now
        && not (list_any (is_unit one var) kept.now)) }
{
    some_lacks(accesses, var, pieces) && !have_unit(one, var, kept)
}

/// Those of so many variables that some piece lacks, where none of these sums is their unit.
pub(crate) fn missing(
    alloc: Global,
    vars: usize,
    accesses: &[Access],
    one: u64,
    kept: &[NestedSum],
    pieces: &[Piece],
) -> Result<Items<usize>, AllocError>
    ensures { IfOk result (λ list. list ≡ missing vars accesses.now one kept.now pieces.now) }
{
    let mut list = Items::new(alloc);
    for var in 0..vars {
        if is_missing(accesses, one, kept, pieces, var) {
            list.push(var)?;
        }
    }
    Ok(list)
}

/// Puts the units of variables at the end of a list.
pub(crate) fn push_units(
    alloc: Global,
    one: u64,
    vars: &[usize],
    list: &mut Items<NestedSum>,
) -> Result<(), AllocError>
    ensures { OnOk result (list.new ≡ list.old ++ map (unit_sum one) vars.now) }
{
    let Some((first, others)) = vars.split_first() else {
        return Ok(());
    };
    list.push(unit_sum(one, *first))?;
    push_units(alloc, one, others, list)
}

/// An expression by the units of variables, which stand among these sums behind so many accesses.
pub(crate) fn with_units(
    alloc: Global,
    count: usize,
    one: u64,
    sums: &[NestedSum],
    expr: Expr,
    vars: &[usize],
) -> Result<Expr, AllocError>
    requires { count + length sums.now < 2 ^ 64 }
    ensures { IfOk result (λ whole. whole ≡ with_units (λ v. count + place_of_unit one v sums.now) expr vars.now) }
{
    let Some((first, others)) = vars.split_first() else {
        return Ok(expr);
    };
    let rest = with_units(alloc, count, one, sums, expr, others)?;
    let unit = Expr::Access(count + place_of_unit(one, *first, sums));
    binary(alloc, Operator::Mul, rest, unit)
}
