//! Accesses that stand in the part of the terms below that remains wherever they are present, so that they are never left out
//! alone.
ghost use Rattle.std.specs.Prelude.{◌≡◌, true};
ghost use Rattle.loop_code.specs.Opened.{HasNoSum};
ghost use Rattle.loop_flags.specs.Liveness.{StandsAlone, StaysIn, StandsAloneBelow, StaysBelow};

use index_notation::Expr;
use loop_code::LoopCode;

/// Whether the access stands outside of all products: it is then in the part that remains wherever it is present.
fn stands_alone(expr: &Expr, access: usize) -> bool
    ensures { result ≡ true → StandsAlone access expr.now }
{
    match expr {
        Expr::Num(_) => false,
        Expr::Access(found) => *found == access,
        Expr::Binary(operator, first, second) => {
            if operator.is_product() {
                return false;
            }
            stands_alone(first.get(), access) || stands_alone(second.get(), access)
        }
        Expr::Neg(inner) => stands_alone(inner.get(), access),
    }
}

/// Whether the access is, wherever it is present and some part remains, in the part that does: it stands alone, or in a factor
/// so, or on both sides of a sum so.
fn stays_in(expr: &Expr, access: usize) -> bool
    ensures { result ≡ true → StaysIn access expr.now }
{
    if stands_alone(expr, access) {
        return true;
    }
    match expr {
        Expr::Num(_) => false,
        Expr::Access(_) => false,
        Expr::Binary(operator, first, second) => {
            if operator.is_product() {
                return stays_in(first.get(), access) || stays_in(second.get(), access);
            }
            stays_in(first.get(), access) && stays_in(second.get(), access)
        }
        Expr::Neg(inner) => stays_in(inner.get(), access),
    }
}

/// Whether the access stands alone in some term below.
fn stands_alone_below(loops: &LoopCode, access: usize) -> bool
    ensures { result ≡ true → StandsAloneBelow access loops.now }
{
    match loops {
        LoopCode::Loop { body, .. } => stands_alone_below(body.get(), access),
        LoopCode::Both(first, second) => {
            stands_alone_below(first.get(), access) || stands_alone_below(second.get(), access)
        }
        LoopCode::Add(term) => stands_alone(&term.expr, access),
        LoopCode::Sum { sum, body, .. } => {
            *sum != access && stands_alone_below(body.get(), access)
        }
    }
}

/// Whether the access is, wherever it is present and a part of some term below remains, in the part that does.
pub(crate) fn stays_below(loops: &LoopCode, access: usize) -> bool
    ensures { result ≡ true → StaysBelow access loops.now }
{
    if stands_alone_below(loops, access) {
        return true;
    }
    match loops {
        LoopCode::Loop { body, .. } => stays_below(body.get(), access),
        LoopCode::Both(first, second) => {
            stays_below(first.get(), access) && stays_below(second.get(), access)
        }
        LoopCode::Add(term) => stays_in(&term.expr, access),
        LoopCode::Sum { sum, inside, body } => {
            let body = body.get();
            if *sum != access && stays_below(body, access) {
                return true;
            }
            stands_alone_below(inside.get(), access) && stays_below(body, *sum)
        }
    }
}

/// Whether no sum below is the one that is read as this access.
pub(crate) fn starts_no_sum(loops: &LoopCode, access: usize) -> bool
    ensures { result ≡ true → HasNoSum access loops.now }
{
    match loops {
        LoopCode::Loop { body, .. } => starts_no_sum(body.get(), access),
        LoopCode::Both(first, second) => {
            starts_no_sum(first.get(), access) && starts_no_sum(second.get(), access)
        }
        LoopCode::Add(_) => true,
        LoopCode::Sum { sum, inside, body } => {
            if *sum == access {
                return false;
            }
            starts_no_sum(inside.get(), access) && starts_no_sum(body.get(), access)
        }
    }
}
