// Which expressions are one, and which are numbers.
ghost use Rattle.std.specs.Prelude.{◌≡◌, IsTrue};

use kernel_code::KExpr;

/// Whether an expression is this number.
pub fn is_number(e: &KExpr, n: u64) -> bool
    ensures { IsTrue result → e.now ≡ KExpr.Num n }
{
    match e {
        KExpr::Num(m) => *m == n,
        _ => false,
    }
}

/// Whether two expressions are one.
pub fn same_expr(a: &KExpr, b: &KExpr) -> bool
    ensures { IsTrue result → a.now ≡ b.now }
{
    match (a, b) {
        (KExpr::Num(n), KExpr::Num(m)) => *n == *m,
        (KExpr::Var(x), KExpr::Var(y)) => *x == *y,
        (KExpr::At(array, i), KExpr::At(other, j)) => {
            *array == *other && same_expr(i.get(), j.get())
        }
        (KExpr::Len(array), KExpr::Len(other)) => *array == *other,
        (KExpr::Bin(op, e, f), KExpr::Bin(other, g, h)) => {
            *op == *other && same_expr(e.get(), g.get()) && same_expr(f.get(), h.get())
        }
        (KExpr::Min(e, f), KExpr::Min(g, h)) => {
            same_expr(e.get(), g.get()) && same_expr(f.get(), h.get())
        }
        (KExpr::Width(e), KExpr::Width(f)) => same_expr(e.get(), f.get()),
        _ => false,
    }
}
