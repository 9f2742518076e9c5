// What a body that has ended becomes.
ghost use Rattle.std.specs.Prelude.{◌≡◌, MatchOption};
ghost use Rattle.kernel_code.specs.declared.syntax.KExpr.{KExpr as AnExpr};
ghost use Rattle.kernel_read.specs.Blocks.{IsEnded, IsThen, closed};
ghost use Rattle.kernel_read.specs.declared.blocks.Opening.TheVariants as o;

use crate::blocks::Opening;
use kernel_code::KStmt;
use trees::Items;

/// The statement that ends with a block that began so. None ends with the first body of an `if`.
pub(crate) fn closing(opening: Opening, body: Items<KStmt>) -> Option<KStmt>
    ensures { MatchOption result (IsThen opening) (λ s. IsEnded opening × (s ≡ closed opening body)) }
{
    match opening {
        Opening::Loop(kind, test) => Some(KStmt::While(kind, test, body)),
        Opening::Then(_) => None,
        Opening::Second(test, first) => Some(KStmt::If(test, first, body)),
    }
}

/// How the second body of an `if` begins whose first body began so and is this one. No other block has a second body.
pub(crate) fn second(opening: Opening, first: Items<KStmt>) -> Option<Opening>
    ensures { MatchOption result (IsThen opening → ⊥)
        (λ next. (e : AnExpr) × ((opening ≡ o.Then e) × (next ≡ o.Second e first))) }
{
    match opening {
        Opening::Loop(_, _) => None,
        Opening::Then(test) => Some(Opening::Second(test, first)),
        Opening::Second(_, _) => None,
    }
}
