//! A row's value is added at the position of its coordinates, below the last head.
ghost use Rattle.std.specs.Prelude.{◌≡◌, ◌≤◌, ◌<◌, ◌*◌, ◌+◌, ◌-◌, ◌^◌, suc, length, IfOk};
ghost use Rattle.appended_results.specs.Values.{place_from, last_place, add_code};

use kernel_code::{Arr, KExpr, KStmt, Op, binary, one_statement, word_at};
use std::alloc::{AllocError, Global};
use trees::Items;

/// The position of the last head at the head's last level. Refused for want of memory alone.
fn last_place(alloc: Global, base: u64, head: usize) -> Result<KExpr, AllocError>
    requires some { 0 < head }
    requires room { base + 4 * head ≤ 2 ^ 62 }
    ensures { IfOk result (λ place. place ≡ last_place base head) }
{
    let count = KExpr::Var(base + 4 * (head as u64 - 1) + 2);
    let place = binary(alloc, Op::Sub, count, KExpr::Num(1))?;
    Ok(place)
}

/// The position of a coordinate, at the level that stands below so many, below a position of the level above. Refused for want of memory
/// alone.
fn place_under(alloc: Global, depth: u64, above: KExpr, key: u64) -> Result<KExpr, AllocError>
    requires { depth < 2 ^ 63 }
    ensures { IfOk result (λ place. place
        ≡ KExpr.Bin Op.Add (KExpr.Bin Op.Mul above (KExpr.At (Arr.Dimension 0 (suc depth)) (KExpr.Num 0))) (KExpr.Var key)) }
{
    let size = word_at(alloc, Arr::Dimension(0, depth + 1), KExpr::Num(0))?;
    let begin = binary(alloc, Op::Mul, above, size)?;
    let place = binary(alloc, Op::Add, begin, KExpr::Var(key))?;
    Ok(place)
}

/// The position of the coordinates in the variables `keys` below a position of the level above, by the levels from the one on that stands
/// below so many. Refused for want of memory alone.
fn place_from(alloc: Global, depth: u64, above: KExpr, keys: &[u64]) -> Result<KExpr, AllocError>
    requires { depth + length keys.now < 2 ^ 63 }
    ensures { IfOk result (λ place. place ≡ place_from depth above keys.now) }
{
    let mut place = above;
    for (n, key) in keys.iter().enumerate() {
        place = place_under(alloc, depth + n as u64, place, *key)?;
    }
    Ok(place)
}

/// Code that adds the value of a row, which stands in a variable, at the position of its coordinates, which stand in the variables `keys`.
/// The row's head, of so many coordinates, is the last one. Refused for want of memory alone.
pub fn add_value(
    alloc: Global,
    base: u64,
    head: usize,
    keys: &[u64],
    value: u64,
) -> Result<Items<KStmt>, AllocError>
    requires some { 0 < head }
    requires within { head ≤ length keys.now }
    requires many { length keys.now < 2 ^ 62 }
    requires room { base + 4 * head ≤ 2 ^ 62 }
    ensures { IfOk result (λ code. code ≡ add_code base head keys.now value) }
{
    let last = last_place(alloc, base, head)?;
    let place = place_from(alloc, head as u64, last, &keys[head..])?;
    let code = one_statement(
        alloc,
        KStmt::AddTo(Arr::Values(0), place, KExpr::Var(value)),
    )?;
    Ok(code)
}
