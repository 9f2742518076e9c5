//! All levels of a result, to which a head is appended.
ghost use Rattle.std.specs.Prelude.{◌≡◌, ◌≤◌, ◌<◌, ◌*◌, ◌+◌, ◌^◌, ◌&&◌, ◌∷◌, ◌++◌, length, IfOk};
ghost use Rattle.kernel_code.specs.declared.syntax.KExpr.{KExpr};
ghost use Rattle.kernel_code.specs.declared.syntax.KStmt.{KStmt};
ghost use Rattle.level_core.specs.Kinds.{properties};
ghost use Rattle.format_spec.specs.Formats.{letters_of};
ghost use Rattle.appended_results.specs.Heads.{IsHead};
ghost use Rattle.appended_results.specs.Codes.{AppendsFirst, AreKeys, HasRoom};
ghost use Rattle.appended_results.specs.Rows.{zeros_code, keep_code, AppendsHead};
ghost use Rattle.appended_results.specs.Opening.{OpensHead};

use crate::keys::{begins, differs_or_first};
use crate::levels::{LevelSite, append_to_level};
use format_spec::FormatLevel;
use kernel_code::{Arr, KExpr, KStmt, Op, binary, one_statement};
use level_core::{Letter, props_of};
use std::alloc::{AllocError, Global};
use tensor_storage::chain_end;
use trees::Items;

/// Whether all levels through one of this kind are full, where those above it are as told.
fn stays_fixed(fixed: bool, letter: Letter) -> bool
    ensures { result ≡ (fixed && (properties letter).full) }
{
    fixed && props_of(letter).full
}

/// Code that appends a head, whose coordinates stand in the variables `keys`, to each level of a result, and counts the positions of those
/// below it. Variables from `free` on are its own. Refused for want of memory alone.
pub fn append_levels(
    alloc: Global,
    format: &[FormatLevel],
    head: usize,
    base: u64,
    keys: &[u64],
    free: u64,
) -> Result<Items<KStmt>, AllocError>
    requires head { IsHead (letters_of format.now) head }
    requires keys { AreKeys (length format.now) base free keys.now }
    requires room { HasRoom (length format.now) base free }
    ensures { IfOk result (AppendsFirst (letters_of format.now) head base free keys.now (length format.now)) }
{
    let mut code = Items::new(alloc);
    let mut fixed = true;
    for above in 0..format.len() {
        let test = begins(alloc, base, head, keys, chain_end(format, above))?;
        let at = LevelSite {
            above: above as u64,
            levels: format.len() as u64,
            base,
            free,
        };
        let level = append_to_level(alloc, format, at, head, fixed, test, keys[above])?;
        code.append(level)?;
        fixed = stays_fixed(fixed, format[above].letter);
    }
    Ok(code)
}

/// Keeps a head's first `head` coordinates. Refused for want of memory alone.
fn keep(alloc: Global, base: u64, keys: &[u64], head: usize) -> Result<Items<KStmt>, AllocError>
    requires head { head ≤ length keys.now }
    requires room { base + 4 * head ≤ 2 ^ 62 }
    ensures { IfOk result (λ code. code ≡ keep_code base keys.now head) }
{
    let mut code = Items::new(alloc);
    for level in 0..head {
        let last = base + 4 * level as u64 + 3;
        code.push(KStmt::Set(last, KExpr::Var(keys[level])))?;
    }
    Ok(code)
}

/// As many values more as there are positions more. Refused for want of memory alone.
fn zeros(alloc: Global, total: u64, zero: u64) -> Result<Items<KStmt>, AllocError>
    ensures { IfOk result (λ code. code ≡ zeros_code total zero) }
{
    let values = KExpr::Len(Arr::Values(0));
    let more = binary(alloc, Op::Sub, KExpr::Var(total), values)?;
    let code = one_statement(alloc, KStmt::Extend(Arr::Values(0), more, KExpr::Num(zero)))?;
    Ok(code)
}

/// The code of a head, of its pieces. Refused for want of memory alone.
fn joined(
    alloc: Global,
    free: u64,
    levels: Items<KStmt>,
    zeros: Items<KStmt>,
    keep: Items<KStmt>,
) -> Result<Items<KStmt>, AllocError>
    ensures { IfOk result (λ code. code ≡ KStmt.Set free (KExpr.Num 0) ∷ (levels ++ (zeros ++ keep))) }
{
    let mut ends = zeros;
    ends.append(keep)?;
    let mut rest = levels;
    rest.append(ends)?;
    let mut code = one_statement(alloc, KStmt::Set(free, KExpr::Num(0)))?;
    code.append(rest)?;
    Ok(code)
}

/// Code that appends a head which isn't the last one, whose coordinates stand in the first of the variables `keys`, to all levels, with a
/// value `zero` for each of its positions. A growth is refused where the positions of a level pass the limit. Variables from `free` on are
/// its own. Refused for want of memory alone.
pub fn append_head(
    alloc: Global,
    format: &[FormatLevel],
    head: usize,
    base: u64,
    zero: u64,
    keys: &[u64],
    free: u64,
) -> Result<Items<KStmt>, AllocError>
    requires head { IsHead (letters_of format.now) head }
    requires keys { AreKeys (length format.now) base free keys.now }
    requires room { HasRoom (length format.now) base free }
    ensures { IfOk result (AppendsHead (letters_of format.now) head base free zero keys.now) }
{
    let levels = append_levels(alloc, format, head, base, keys, free)?;
    let total = free + 2 * format.len() as u64 + 1;
    let zeros = zeros(alloc, total, zero)?;
    let keep = keep(alloc, base, keys, head)?;
    let code = joined(alloc, free, levels, zeros, keep)?;
    Ok(code)
}

/// Code that appends the head of a row, whose coordinates stand in the variables `keys`, unless it is the last one. Heads come in an order
/// that never falls. Variables from `free` on are its own. Refused for want of memory alone.
pub fn open_head(
    alloc: Global,
    format: &[FormatLevel],
    head: usize,
    base: u64,
    zero: u64,
    keys: &[u64],
    free: u64,
) -> Result<Items<KStmt>, AllocError>
    requires head { IsHead (letters_of format.now) head }
    requires keys { AreKeys (length format.now) base free keys.now }
    requires room { HasRoom (length format.now) base free }
    ensures { IfOk result (OpensHead (letters_of format.now) head base free zero keys.now) }
{
    let other = differs_or_first(alloc, base, head, keys, head)?;
    let append = append_head(alloc, format, head, base, zero, keys, free)?;
    let code = one_statement(alloc, KStmt::If(other, append, Items::new(alloc)))?;
    Ok(code)
}
