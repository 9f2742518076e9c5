ghost use Rattle.std.specs.Prelude.{◌≡◌, ◌≤◌, ◌+◌, ◌^◌, IfOk};
ghost use Rattle.result_assembly.specs.Tests.{differs, begins_test};

use kernel_code::{Arr, KExpr, Op, binary, word_at};
use level_rows::DrainSite;
use std::alloc::{AllocError, Global};

/// The expression that tells whether a row differs from the row before in one of its first keys. Refused for want of memory alone.
fn differs_from_before(alloc: Global, at: DrainSite, keys: u64) -> Result<KExpr, AllocError>
    ensures { IfOk result (λ test. test ≡ differs at.base at.workspace keys) }
{
    let mut test = KExpr::Num(0);
    for key in 0..keys {
        let column = Arr::Key(at.workspace, key);
        let earlier = binary(alloc, Op::Sub, KExpr::Var(at.base), KExpr::Num(1))?;
        let before = word_at(alloc, column, earlier)?;
        let here = word_at(alloc, column, KExpr::Var(at.base))?;
        let unlike = binary(alloc, Op::NotEqual, before, here)?;
        test = binary(alloc, Op::Or, test, unlike)?;
    }
    Ok(test)
}

/// The expression that tells whether a row of a workspace begins a position: whether it is the first, or differs from the row before
/// in one of its first `keys` keys. Refused for want of memory alone.
pub fn begins_by_keys(alloc: Global, at: DrainSite, keys: u64) -> Result<KExpr, AllocError>
    ensures { IfOk result (λ test. test ≡ begins_test at.base at.workspace keys) }
{
    let start = binary(alloc, Op::Equal, KExpr::Var(at.base), KExpr::Num(0))?;
    let unlike = differs_from_before(alloc, at, keys)?;
    let test = binary(alloc, Op::Or, start, unlike)?;
    Ok(test)
}
