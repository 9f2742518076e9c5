//! Code that adds the row of a term to a sink.
ghost use Rattle.std.specs.Prelude.{◌≡◌, ℕ, ◌<◌, ◌≤◌, ◌+◌, ◌^◌, Bool, [], ◌∷◌, ◌++◌, length, true, All, IfOk};
ghost use Rattle.limits.specs.Limits.{greatest_order};
ghost use Rattle.expr_terms.specs.Minus.{HasMeaning};
ghost use Rattle.loop_code.specs.Loops.{term_value};
ghost use Rattle.loop_code.specs.Places.{EachAccess};
ghost use Rattle.term_code.specs.Places.{AreBelow};
ghost use Rattle.term_code.specs.Options.{LeavesOption};
ghost use Rattle.term_code.specs.Terms.{AddsTerm};

use crate::places::Places;
use crate::values::{emit_value, negated};
use expr_terms::{Term, coords_at};
use kernel_code::{KExpr, KStmt};
use numbers::Semiring;
use result_targets::RowSink;
use std::alloc::{AllocError, Global};
use trees::Items;

/// Code that leaves the value of a term, by its sign, if it is present.
fn emit_signed<S: Semiring>(
    alloc: Global,
    places: &Places,
    term: &Term,
    free: u64,
) -> Result<Items<KStmt>, AllocError>
    requires placed { EachAccess (λ k. k < length places.now.accesses) term.now.expr }
    requires meant { HasMeaning S.has_minus term.now.expr }
    requires sign { term.now.negated ≡ true → S.has_minus ≡ true }
    requires below { AreBelow free places.now }
    requires room { free ≤ 2 ^ 62 }
    ensures { IfOk result (λ code. (these : ℕ → Bool) → EachAccess (λ k. these k ≡ true) term.now.expr
        → LeavesOption S.arithmetic places.now these (λ stored env. term_value S.arithmetic stored env term.now) free code) }
{
    let value = emit_value::<S>(alloc, places, &term.expr, free)?;
    if !term.negated {
        return Ok(value);
    }
    let code = negated::<S>(alloc, value, free)?;
    Ok(code)
}

/// Does the code of a row where there is a value.
fn add_present(
    alloc: Global,
    value: Items<KStmt>,
    row: Items<KStmt>,
    free: u64,
) -> Result<Items<KStmt>, AllocError>
    ensures { IfOk result (λ code. code ≡ value ++ KStmt.If (KExpr.Var free) row [] ∷ []) }
{
    let mut code = value;
    code.push(KStmt::If(KExpr::Var(free), row, Items::new(alloc)))?;
    Ok(code)
}

/// Code that adds the row of a term to a sink where the term is present: its coordinates are those of the variables of
/// `target`. Variables from `free` on are its own. Refused only for want of memory.
pub fn emit_term<S: Semiring, K: RowSink>(
    alloc: Global,
    sink: &K,
    places: &Places,
    target: &[usize],
    term: &Term,
    free: u64,
) -> Result<Items<KStmt>, AllocError>
    requires placed { EachAccess (λ k. k < length places.now.accesses) term.now.expr }
    requires meant { HasMeaning S.has_minus term.now.expr }
    requires sign { term.now.negated ≡ true → S.has_minus ≡ true }
    requires target { All (λ v. v < length places.now.variables) target.now }
    requires short { length target.now ≤ greatest_order }
    requires keys { length target.now ≡ K.sink.keys sink.now }
    requires below { AreBelow free places.now }
    requires room { free ≤ 2 ^ 62 }
    ensures { IfOk result (AddsTerm S.arithmetic K.sink sink.now places.now target.now term.now free) }
{
    // No memory holds the code of so many operands.
    if free >= 1 << 61 {
        return Err(AllocError);
    }
    let keys = coords_at(alloc, target, places.variables.as_slice());
    let row = sink.add_row(alloc, keys.as_slice(), free + 1, free + 2)?;
    let value = emit_signed::<S>(alloc, places, term, free)?;
    let code = add_present(alloc, value, row, free)?;
    Ok(code)
}
