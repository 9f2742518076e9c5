//! Whether an expression has a meaning over a semiring that may have no minus.
ghost use Rattle.std.specs.Prelude.{◌≡◌, IsTrue};
ghost use Rattle.expr_terms.specs.Minus.{has_minus, HasMeaning};

use index_notation::Expr;
use numbers::Semiring;

/// Whether a minus stands in an expression.
fn has_minus(expr: &Expr) -> bool
    ensures { result ≡ has_minus expr.now }
{
    match expr {
        Expr::Num(_) | Expr::Access(_) => false,
        Expr::Binary(operator, first, second) => {
            if operator.is_minus() {
                return true;
            }
            has_minus(first.get()) || has_minus(second.get())
        }
        Expr::Neg(_) => true,
    }
}

/// Whether an expression has a meaning over a semiring: there is a minus, or none stands in the expression.
pub fn has_meaning<S: Semiring>(expr: &Expr) -> bool
    ensures told { IsTrue result → HasMeaning S.has_minus expr.now }
    ensures found { HasMeaning S.has_minus expr.now → IsTrue result }
{
    S::minus_one().is_some() || !has_minus(expr)
}
