//! Whether a row begins a position: its coordinates are compared with those of the row before, which variables keep.
ghost use Rattle.std.specs.Prelude.{◌≡◌, ◌≤◌, ◌<◌, ◌*◌, ◌+◌, ◌-◌, ◌^◌, length, slice_index, IfOk};
ghost use Rattle.appended_results.specs.Codes.{differs, differs_or_first, begins_code};

use kernel_code::{KExpr, Op, binary};
use std::alloc::{AllocError, Global};

/// Whether the row in the variables `keys` differs from the last one in one of its first `levels` coordinates. Refused for want of memory
/// alone.
fn differs(alloc: Global, base: u64, keys: &[u64], levels: usize) -> Result<KExpr, AllocError>
    requires levels { levels ≤ length keys.now }
    requires room { base + 4 * levels ≤ 2 ^ 62 }
    ensures { IfOk result (λ test. test ≡ differs base keys.now levels) }
{
    let mut test = KExpr::Num(0);
    for level in 0..levels {
        let last = KExpr::Var(base + 4 * level as u64 + 3);
        let unlike = binary(alloc, Op::NotEqual, last, KExpr::Var(keys[level]))?;
        test = binary(alloc, Op::Or, test, unlike)?;
    }
    Ok(test)
}

/// Whether there is no row yet, or the row in the variables `keys` differs from the last one in one of its first `levels` coordinates.
/// Refused for want of memory alone.
pub fn differs_or_first(
    alloc: Global,
    base: u64,
    head: usize,
    keys: &[u64],
    levels: usize,
) -> Result<KExpr, AllocError>
    requires levels { levels ≤ length keys.now }
    requires some { 0 < head }
    requires room { base + 4 * head ≤ 2 ^ 62 }
    requires within { levels ≤ head }
    ensures { IfOk result (λ test. test ≡ differs_or_first base head keys.now levels) }
{
    let count = KExpr::Var(base + 4 * (head as u64 - 1) + 2);
    let none = binary(alloc, Op::Equal, count, KExpr::Num(0))?;
    let unlike = differs(alloc, base, keys, levels)?;
    let test = binary(alloc, Op::Or, none, unlike)?;
    Ok(test)
}

/// Whether a row whose first `head` coordinates aren't those of the last one begins a position where it differs in one of the first
/// `levels`: it does where these are all. Refused for want of memory alone.
pub fn begins(
    alloc: Global,
    base: u64,
    head: usize,
    keys: &[u64],
    levels: usize,
) -> Result<KExpr, AllocError>
    requires head { head ≤ length keys.now }
    requires some { 0 < head }
    requires room { base + 4 * head ≤ 2 ^ 62 }
    ensures { IfOk result (λ test. test ≡ begins_code base head keys.now levels) }
{
    if head <= levels {
        return Ok(KExpr::Num(1));
    }
    differs_or_first(alloc, base, head, keys, levels)
}
