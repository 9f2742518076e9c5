// What expressions mention and read.
ghost use Rattle.std.specs.Prelude.{IsTrue};
ghost use Rattle.jump_threading.specs.Leads.{Avoids};

use kernel_code::{Arr, KExpr};

/// Whether an expression doesn't mention a variable.
pub(crate) fn avoids(e: &KExpr, x: u64) -> bool
    ensures { IsTrue result → Avoids x e.now }
{
    match e {
        KExpr::Num(_) => true,
        KExpr::Var(y) => *y != x,
        KExpr::At(_, i) => avoids(i.get(), x),
        KExpr::Len(_) => true,
        KExpr::Bin(_, a, b) => avoids(a.get(), x) && avoids(b.get(), x),
        KExpr::Min(a, b) => avoids(a.get(), x) && avoids(b.get(), x),
        KExpr::Width(e) => avoids(e.get(), x),
    }
}

/// Whether a kernel may write an array: it is the result's, a workspace's or a scratch list's.
fn is_written(array: Arr) -> bool {
    match array {
        Arr::Range | Arr::Dimension(_, _) => false,
        Arr::Values(n) | Arr::Ends(n, _) | Arr::Coordinates(n, _) | Arr::Width(n, _) => n == 0,
        Arr::Key(_, _) | Arr::Sums(_) => true,
        Arr::ListCoordinates(_) | Arr::ListPositions(_) => true,
    }
}

/// Whether an expression reads an array that a kernel may write.
pub(crate) fn reads_written(e: &KExpr) -> bool {
    match e {
        KExpr::Num(_) | KExpr::Var(_) => false,
        KExpr::At(array, i) => is_written(*array) || reads_written(i.get()),
        KExpr::Len(array) => is_written(*array),
        KExpr::Bin(_, a, b) | KExpr::Min(a, b) => reads_written(a.get()) || reads_written(b.get()),
        KExpr::Width(e) => reads_written(e.get()),
    }
}
