// Loads: what a loop reads before it and at the end of each turn.
ghost use Rattle.std.specs.Prelude.{◌≡◌, [], ◌∷◌, IsTrue, IfOk, IfSome};
ghost use Rattle.store_facts.specs.Loads.{load_code};

use kernel_code::{KExpr, KStmt, copy_expr};
use simplifier::{is_number, same_expr};
use std::alloc::{AllocError, Global};

/// Code that gives a variable a coordinate where a test isn't 0, and else the last word.
#[derive(Drop)]
pub(crate) struct Load {
    pub(crate) variable: u64,
    pub(crate) test: KExpr,
    pub(crate) coordinate: KExpr,
}

/// Whether code gives the variable the expression's value and does nothing else.
fn sets_only(code: &[KStmt], x: u64, e: &KExpr) -> bool
    ensures { IsTrue result → code.now ≡ KStmt.Set x e.now ∷ [] }
{
    match code {
        [KStmt::Set(y, f)] => *y == x && same_expr(f, e),
        _ => false,
    }
}

/// Whether code gives the variable the last word and does nothing else.
pub(crate) fn sets_last(code: &[KStmt], x: u64) -> bool
    ensures { IsTrue result → code.now ≡ KStmt.Set x (KExpr.Num 18446744073709551615) ∷ [] }
{
    match code {
        [KStmt::Set(y, f)] => *y == x && is_number(f, u64::MAX),
        _ => false,
    }
}

/// The load that a statement is, if it is one. Refused only for want of memory.
pub(crate) fn load_of(alloc: Global, s: &KStmt) -> Result<Option<Load>, AllocError>
    ensures { IfOk result (λ found. IfSome found (λ load. s.now ≡ load_code load)) }
{
    let KStmt::If(test, first, second) = s else {
        return Ok(None);
    };
    let [KStmt::Set(x, e)] = first.as_slice() else {
        return Ok(None);
    };
    if !sets_last(second.as_slice(), *x) {
        return Ok(None);
    }
    let test = copy_expr(alloc, test)?;
    let coordinate = copy_expr(alloc, e)?;
    Ok(Some(Load {
        variable: *x,
        test,
        coordinate,
    }))
}

/// Whether a statement is this load.
pub(crate) fn is_load(s: &KStmt, load: &Load) -> bool
    ensures { IsTrue result → s.now ≡ load_code load.now }
{
    match s {
        KStmt::If(test, first, second) => {
            same_expr(test, &load.test)
                && sets_only(first.as_slice(), load.variable, &load.coordinate)
                && sets_last(second.as_slice(), load.variable)
        }
        _ => false,
    }
}
