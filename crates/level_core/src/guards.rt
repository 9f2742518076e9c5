ghost use Rattle.std.specs.Prelude.{◌≡◌, IfOk};
ghost use Rattle.level_core.specs.GuardedProducts.{greatest_narrow_factor, parents_of_wide, is_wide, most_parents, guarded_product};

use kernel_code::{KExpr, Op, binary, copy_expr};
use limits::greatest_positions;
use std::alloc::{AllocError, Global};
use trees::Boxed;

/// The greatest factor that may be multiplied with as many parents as the limit allows: 2^22.
const GREATEST_NARROW_FACTOR: u64 = 4_194_304;

/// A greater factor may be multiplied with one parent more than so many, and that passes the limit: 2^18.
const PARENTS_OF_WIDE: u64 = 262_144;

#[tactic(auto, unfolding(crate::specs::GuardedProducts::greatest_narrow_factor))]
fn narrow_factor() -> u64
    ensures { result ≡ greatest_narrow_factor }
{
    GREATEST_NARROW_FACTOR
}

#[tactic(auto, unfolding(crate::specs::GuardedProducts::parents_of_wide))]
fn wide_parents() -> u64
    ensures { result ≡ parents_of_wide }
{
    PARENTS_OF_WIDE
}

/// How many parents a factor is multiplied with at most. Refused for want of memory alone.
#[tactic(auto, using(limits::proofs::Limits::positions_are_small, crate::proofs::GuardedProducts::wide_parents_are_positions))]
fn most_parents(alloc: Global, factor: &KExpr) -> Result<KExpr, AllocError>
    ensures { IfOk result (λ e. e ≡ most_parents factor.now) }
{
    let positions = greatest_positions();
    let parents = wide_parents();
    let narrow = narrow_factor();
    let factor = copy_expr(alloc, factor)?;
    let is_wide = binary(alloc, Op::Less, KExpr::Num(narrow), factor)?;
    let fewer = binary(alloc, Op::Mul, is_wide, KExpr::Num(positions - parents))?;
    binary(alloc, Op::Sub, KExpr::Num(positions + 1), fewer)
}

/// The product of a number of parents and a factor of at most 2^42, computed as a word: the product where it is within the limit on
/// positions, and else a number that passes the limit and is at most the product. Refused for want of memory alone.
pub fn guarded_product(alloc: Global, parents: KExpr, factor: KExpr) -> Result<KExpr, AllocError>
    ensures { IfOk result (λ e. e ≡ guarded_product parents factor) }
{
    let most = most_parents(alloc, &factor)?;
    let parents = Boxed::new(alloc, parents)?;
    let most = Boxed::new(alloc, most)?;
    binary(alloc, Op::Mul, KExpr::Min(parents, most), factor)
}
