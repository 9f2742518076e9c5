//! Nested sums that are opened: products are distributed over sums and differences, until each such sum is a whole piece or a factor
//! of one.
ghost use Rattle.std.specs.Prelude.{◌≡◌, ◌+◌, ◌<◌, ◌^◌, [], ◌∷◌, ◌++◌, if◌then◌else◌, length, map, IfOk, OnOk};
ghost use Rattle.nested_sums.specs.Inner.{is_inner};
ghost use Rattle.nested_sums.specs.Pieces.{whole_piece, negated_piece, summed_piece};
ghost use Rattle.nested_sums.specs.Pieces.{piece_product, piece_products, pieces_of_sides, differ};
ghost use Rattle.nested_sums.specs.Pieces.{is_opened, pieces_at, is_whole, pieces, opened_sum, opened_sums};

use crate::inner_sums::inner;
use index_notation::{Expr, NestedSum, Operator, Statement, binary, copy_expr};
use std::alloc::{AllocError, Global};
use trees::Items;

/// A piece of an expression: `factors`, negated or not, summed over the whole ranges of the variables of `over`.
#[derive(Debug, Drop)]
pub struct Piece {
    pub negated: bool,
    pub factors: Expr,
    pub over: Items<usize>,
}

/// A nested sum that was opened: its pieces, and the number at which it stands in expressions.
#[derive(Debug, Drop)]
pub struct Opened {
    pub leaf: usize,
    pub pieces: Items<Piece>,
}

/// An expression as a whole.
fn whole_piece(alloc: Global, expr: &Expr) -> Result<Items<Piece>, AllocError>
    ensures { IfOk result (λ list. list ≡ whole_piece expr.now ∷ []) }
{
    let factors = copy_expr(alloc, expr)?;
    let mut list = Items::new(alloc);
    list.push(Piece {
        negated: false,
        factors,
        over: Items::new(alloc),
    })?;
    Ok(list)
}

/// Puts copies of pieces at the end of a list.
fn push_copies(alloc: Global, pieces: &[Piece], list: &mut Items<Piece>) -> Result<(), AllocError>
    ensures { OnOk result (list.new ≡ list.old ++ pieces.now) }
{
    let Some((first, others)) = pieces.split_first() else {
        return Ok(());
    };
    list.push(Piece {
        negated: first.negated,
        factors: copy_expr(alloc, &first.factors)?,
        over: Items::from_slice(alloc, first.over.as_slice())?,
    })?;
    push_copies(alloc, others, list)
}

/// Puts copies of pieces, negated, at the end of a list.
fn push_negated(alloc: Global, pieces: &[Piece], list: &mut Items<Piece>) -> Result<(), AllocError>
    ensures { OnOk result (list.new ≡ list.old ++ map negated_piece pieces.now) }
{
    let Some((first, others)) = pieces.split_first() else {
        return Ok(());
    };
    list.push(Piece {
        negated: !first.negated,
        factors: copy_expr(alloc, &first.factors)?,
        over: Items::from_slice(alloc, first.over.as_slice())?,
    })?;
    push_negated(alloc, others, list)
}

/// Puts copies of pieces, summed over one variable more, at the end of a list.
fn push_summed(
    alloc: Global,
    var: usize,
    pieces: &[Piece],
    list: &mut Items<Piece>,
) -> Result<(), AllocError>
    ensures { OnOk result (list.new ≡ list.old ++ map (summed_piece var) pieces.now) }
{
    let Some((first, others)) = pieces.split_first() else {
        return Ok(());
    };
    let mut over = Items::new(alloc);
    over.push(var)?;
    over.append(Items::from_slice(alloc, first.over.as_slice())?)?;
    list.push(Piece {
        negated: first.negated,
        factors: copy_expr(alloc, &first.factors)?,
        over,
    })?;
    push_summed(alloc, var, others, list)
}

/// Whether a product of two parts is negated.
pub(crate) fn differ(first: bool, second: bool) -> bool
    ensures { result ≡ differ first second }
{
    if first { !second } else { second }
}

/// The product of two pieces.
fn piece_product(alloc: Global, first: &Piece, second: &Piece) -> Result<Piece, AllocError>
    ensures { IfOk result (λ piece. piece ≡ piece_product first.now second.now) }
{
    let left = copy_expr(alloc, &first.factors)?;
    let right = copy_expr(alloc, &second.factors)?;
    let factors = binary(alloc, Operator::Mul, left, right)?;
    let mut over = Items::from_slice(alloc, first.over.as_slice())?;
    over.append(Items::from_slice(alloc, second.over.as_slice())?)?;
    Ok(Piece {
        negated: differ(first.negated, second.negated),
        factors,
        over,
    })
}

/// Puts the products of a piece and each of others at the end of a list.
fn push_products_of(
    alloc: Global,
    first: &Piece,
    seconds: &[Piece],
    list: &mut Items<Piece>,
) -> Result<(), AllocError>
    ensures { OnOk result (list.new ≡ list.old ++ map (piece_product first.now) seconds.now) }
{
    let Some((second, others)) = seconds.split_first() else {
        return Ok(());
    };
    list.push(piece_product(alloc, first, second)?)?;
    push_products_of(alloc, first, others, list)
}

/// Puts the products of each piece with each of others at the end of a list.
fn push_products(
    alloc: Global,
    firsts: &[Piece],
    seconds: &[Piece],
    list: &mut Items<Piece>,
) -> Result<(), AllocError>
    ensures { OnOk result (list.new ≡ list.old ++ piece_products firsts.now seconds.now) }
{
    let Some((first, others)) = firsts.split_first() else {
        return Ok(());
    };
    push_products_of(alloc, first, seconds, list)?;
    push_products(alloc, others, seconds, list)
}

/// The pieces of an expression of two sides, by theirs.
fn pieces_of_sides(
    alloc: Global,
    operator: Operator,
    first: Items<Piece>,
    second: Items<Piece>,
) -> Result<Items<Piece>, AllocError>
    ensures { IfOk result (λ list. list ≡ pieces_of_sides operator first second) }
{
    let mut list = first;
    match operator {
        Operator::Add => {
            list.append(second)?;
            Ok(list)
        }
        Operator::Sub => {
            push_negated(alloc, second.as_slice(), &mut list)?;
            Ok(list)
        }
        Operator::Mul => {
            let mut products = Items::new(alloc);
            push_products(alloc, list.as_slice(), second.as_slice(), &mut products)?;
            Ok(products)
        }
    }
}

/// Whether a sum was opened, by the number at which it stands in expressions.
fn is_opened(opened: &[Opened], leaf: usize) -> bool
    ensures { result ≡ is_opened opened.now leaf }
{
    let Some((first, others)) = opened.split_first() else {
        return false;
    };
    first.leaf == leaf || is_opened(others, leaf)
}

/// Whether no opened sum stands in an expression.
fn is_whole(opened: &[Opened], expr: &Expr) -> bool
    ensures { result ≡ is_whole opened.now expr.now }
{
    match expr {
        Expr::Num(_) => true,
        Expr::Access(n) => !is_opened(opened, *n),
        Expr::Binary(_, first, second) => {
            is_whole(opened, first.get()) && is_whole(opened, second.get())
        }
        Expr::Neg(inner) => is_whole(opened, inner.get()),
    }
}

/// The pieces of an access, or of a sum that was opened.
fn pieces_at(alloc: Global, opened: &[Opened], leaf: usize) -> Result<Items<Piece>, AllocError>
    ensures { IfOk result (λ list. list ≡ pieces_at opened.now leaf) }
{
    let Some((first, others)) = opened.split_first() else {
        return whole_piece(alloc, &Expr::Access(leaf));
    };
    if first.leaf == leaf {
        let mut list = Items::new(alloc);
        push_copies(alloc, first.pieces.as_slice(), &mut list)?;
        return Ok(list);
    }
    pieces_at(alloc, others, leaf)
}

/// The pieces of an expression: products are distributed over sums and differences as far as opened sums stand in them.
pub(crate) fn pieces_of(
    alloc: Global,
    opened: &[Opened],
    expr: &Expr,
) -> Result<Items<Piece>, AllocError>
    ensures { IfOk result (λ list. list ≡ pieces opened.now expr.now) }
{
    match expr {
        Expr::Num(_) => whole_piece(alloc, expr),
        Expr::Access(n) => pieces_at(alloc, opened, *n),
        Expr::Binary(operator, first, second) => {
            if is_whole(opened, expr) {
                return whole_piece(alloc, expr);
            }
            let first = pieces_of(alloc, opened, first.get())?;
            let second = pieces_of(alloc, opened, second.get())?;
            pieces_of_sides(alloc, *operator, first, second)
        }
        Expr::Neg(inner) => {
            if is_whole(opened, expr) {
                return whole_piece(alloc, expr);
            }
            let pieces = pieces_of(alloc, opened, inner.get())?;
            let mut list = Items::new(alloc);
            push_negated(alloc, pieces.as_slice(), &mut list)?;
            Ok(list)
        }
    }
}

/// A sum that is opened: the pieces of its inside, summed over its variable too.
fn opened_sum(
    alloc: Global,
    opened: &[Opened],
    leaf: usize,
    sum: &NestedSum,
) -> Result<Opened, AllocError>
    ensures { IfOk result (λ one. one ≡ opened_sum opened.now leaf sum.now) }
{
    let inside = pieces_of(alloc, opened, &sum.inside)?;
    let mut pieces = Items::new(alloc);
    push_summed(alloc, sum.var, inside.as_slice(), &mut pieces)?;
    Ok(Opened { leaf, pieces })
}

/// Puts a sum that isn't inner, opened, behind those that were; `count` accesses stand before the sums.
fn push_if_outer(
    alloc: Global,
    statement: &Statement,
    order: &[usize],
    count: usize,
    number: usize,
    sum: &NestedSum,
    opened: &mut Items<Opened>,
) -> Result<(), AllocError>
    requires number { number < length statement.now.sums }
    requires few { count + length statement.now.sums < 2 ^ 64 }
    ensures { OnOk result (opened.new ≡ (if is_inner statement.now order.now number then opened.old
        else (opened.old ++ (opened_sum opened.old (count + number) sum.now ∷ [])))) }
{
    if inner(statement, order, number) {
        return Ok(());
    }
    let one = opened_sum(alloc, opened.as_slice(), count + number, sum)?;
    opened.push(one)
}

/// Puts those of the last sums that aren't inner, from this number on, behind those that were opened; `count` accesses stand before
/// the sums.
pub(crate) fn push_opened(
    alloc: Global,
    statement: &Statement,
    order: &[usize],
    sums: &[NestedSum],
    count: usize,
    number: usize,
    opened: &mut Items<Opened>,
) -> Result<(), AllocError>
    requires last { number + length sums.now ≡ length statement.now.sums }
    requires few { count + length statement.now.sums < 2 ^ 64 }
    ensures { OnOk result (opened.new ≡ opened_sums (is_inner statement.now order.now) count number opened.old sums.now) }
{
    let Some((first, others)) = sums.split_first() else {
        return Ok(());
    };
    push_if_outer(alloc, statement, order, count, number, first, opened)?;
    push_opened(alloc, statement, order, others, count, number + 1, opened)
}
