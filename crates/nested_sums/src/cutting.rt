//! The pieces of a statement's terms: each is cut into terms, and summed over the own variables of the term of which it is a piece.
ghost use Rattle.std.specs.Prelude.{◌≡◌, ◌++◌, map, IfOk, OnOk};
ghost use Rattle.expr_terms.specs.Nested.{flat as flat_of};
ghost use Rattle.nested_sums.specs.Multiplied.{cut_piece, cut_pieces, pieces_of_terms};

use crate::opening::{Opened, Piece, differ, pieces_of};
use expr_terms::{Term, own_variables, terms};
use index_notation::{Statement, copy_expr};
use std::alloc::{AllocError, Global};
use trees::Items;

/// A term of a piece's factors, summed over these variables too.
fn cut_piece(
    alloc: Global,
    negated: bool,
    own: &[usize],
    piece: &Piece,
    term: &Term,
) -> Result<Piece, AllocError>
    ensures { IfOk result (λ cut. cut ≡ cut_piece negated own.now piece.now term.now) }
{
    let factors = copy_expr(alloc, &term.expr)?;
    let mut over = Items::from_slice(alloc, own)?;
    over.append(Items::from_slice(alloc, piece.over.as_slice())?)?;
    Ok(Piece {
        negated: differ(differ(negated, piece.negated), term.negated),
        factors,
        over,
    })
}

/// Puts terms of a piece's factors, each summed over these variables too, at the end of a list.
fn push_cut(
    alloc: Global,
    negated: bool,
    own: &[usize],
    piece: &Piece,
    terms: &[Term],
    list: &mut Items<Piece>,
) -> Result<(), AllocError>
    ensures { OnOk result (list.new ≡ list.old ++ map (cut_piece negated own.now piece.now) terms.now) }
{
    let Some((first, others)) = terms.split_first() else {
        return Ok(());
    };
    list.push(cut_piece(alloc, negated, own, piece, first)?)?;
    push_cut(alloc, negated, own, piece, others, list)
}

/// Puts pieces, cut into terms and summed over these variables too, at the end of a list.
fn push_cuts(
    alloc: Global,
    negated: bool,
    own: &[usize],
    pieces: &[Piece],
    list: &mut Items<Piece>,
) -> Result<(), AllocError>
    ensures { OnOk result (list.new ≡ list.old ++ cut_pieces negated own.now pieces.now) }
{
    let Some((first, others)) = pieces.split_first() else {
        return Ok(());
    };
    let cut = terms(alloc, &first.factors)?;
    push_cut(alloc, negated, own, first, cut.as_slice(), list)?;
    push_cuts(alloc, negated, own, others, list)
}

/// Puts the pieces of terms, each cut into terms and summed over the own variables of its own, at the end of a list. `flat` is the
/// statement that reads its nested sums as tensors.
pub(crate) fn push_pieces_of_terms(
    alloc: Global,
    statement: &Statement,
    flat: &Statement,
    opened: &[Opened],
    terms: &[Term],
    list: &mut Items<Piece>,
) -> Result<(), AllocError>
    requires { flat.now ≡ flat_of statement.now }
    ensures { OnOk result (list.new ≡ list.old ++ pieces_of_terms statement.now opened.now terms.now) }
{
    let Some((first, others)) = terms.split_first() else {
        return Ok(());
    };
    let own = own_variables(alloc, flat, first)?;
    let pieces = pieces_of(alloc, opened, &first.expr)?;
    push_cuts(
        alloc,
        first.negated,
        own.as_slice(),
        pieces.as_slice(),
        list,
    )?;
    push_pieces_of_terms(alloc, statement, flat, opened, others, list)
}
