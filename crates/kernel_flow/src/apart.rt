// What a loop keeps since its body sets no variable of it.
ghost use Rattle.std.specs.Prelude.{◌≡◌, ◌∷◌, [], false, IsTrue};
ghost use Rattle.kernel_code.specs.Keeps.{Mentions};
ghost use Rattle.kernel_flow.specs.Apart.{KeepsApart, is_in};
ghost use Rattle.kernel_flow.specs.Steady.{IsReadOnly};

use crate::exprs::is_read_only;
use kernel_code::{KExpr, KStmt};

/// Whether a variable is one of some.
fn is_in(some: &[bool], x: u64) -> bool
    ensures { result ≡ is_in some.now x }
{
    match some.get(x as usize) {
        Some(test) => *test,
        None => false,
    }
}

/// Whether an expression mentions none of some variables and no array that may be written.
pub(crate) fn is_apart(e: &KExpr, some: &[bool]) -> bool
    ensures { IsTrue result → Mentions (λ y. is_in some.now y ≡ false) IsReadOnly e.now }
{
    match e {
        KExpr::Num(_) => true,
        KExpr::Var(y) => !is_in(some, *y),
        KExpr::At(array, i) => is_read_only(*array) && is_apart(i.get(), some),
        KExpr::Len(array) => is_read_only(*array),
        KExpr::Bin(_, a, b) => is_apart(a.get(), some) && is_apart(b.get(), some),
        KExpr::Min(a, b) => is_apart(a.get(), some) && is_apart(b.get(), some),
        KExpr::Width(e) => is_apart(e.get(), some),
    }
}

/// Whether a statement sets no other variables than some.
#[cycle(sets)]
fn statement_sets_only(s: &KStmt, some: &[bool]) -> bool
    ensures { IsTrue result → KeepsApart some.now (s.now ∷ []) }
{
    match s {
        KStmt::Set(x, _) => is_in(some, *x),
        KStmt::Combine(x, _, _, _) => is_in(some, *x),
        KStmt::Put(_, _, _) => true,
        KStmt::AddTo(_, _, _) => true,
        KStmt::Push(_, _) => true,
        KStmt::Extend(_, _, _) => true,
        KStmt::Cut(_, _) => true,
        KStmt::Sort(_) => true,
        KStmt::SortSum(_) => true,
        KStmt::If(_, first, second) => {
            sets_only(first.as_slice(), some) && sets_only(second.as_slice(), some)
        }
        KStmt::While(_, _, body) => sets_only(body.as_slice(), some),
    }
}

/// Whether code sets no other variables than some.
#[cycle(sets)]
pub(crate) fn sets_only(code: &[KStmt], some: &[bool]) -> bool
    ensures { IsTrue result → KeepsApart some.now code.now }
{
    for s in code {
        if !statement_sets_only(s, some) {
            return false;
        }
    }
    true
}
