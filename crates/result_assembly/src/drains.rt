ghost use Rattle.std.specs.Prelude.{◌≡◌, ◌≤◌, ◌<◌, ◌+◌, ◌^◌, length, IfOk};
ghost use Rattle.format_spec.specs.Formats.{letters_of, IsFormat};
ghost use Rattle.result_assembly.specs.Levels.{DrainsFirst};

use crate::levels::drain_level;
use format_spec::FormatLevel;
use kernel_code::{KExpr, KStmt, one_statement};
use level_rows::DrainSite;
use std::alloc::{AllocError, Global};
use tensor_storage::chain_end;
use trees::Items;

/// Code that fills the first `levels` levels of a kernel's result, of this format, from the rows of a workspace, which increase:
/// scratch list `list` has a zero for each row, and then its position at the last of them. The number of positions of the level that
/// stands below k others is left in the variable `base + k + 1`; those from `base` on are its own. Refused for want of memory alone.
pub fn drain_levels(
    alloc: Global,
    format: &[FormatLevel],
    levels: usize,
    workspace: u64,
    list: u64,
    base: u64,
) -> Result<Items<KStmt>, AllocError>
    requires format { IsFormat format.now }
    requires levels { levels ≤ length format.now }
    requires room { base ≤ 2 ^ 60 }
    ensures { IfOk result (DrainsFirst (letters_of format.now) levels workspace list base) }
{
    let mut code = one_statement(alloc, KStmt::Set(base, KExpr::Num(1)))?;
    for above in 0..levels {
        let place = base + above as u64 + 1;
        let at = DrainSite {
            level: above as u64 + 1,
            base: place,
            workspace,
            list,
        };
        let through = chain_end(format, above) as u64;
        let count = KExpr::Var(base + above as u64);
        let level = drain_level(alloc, format[above].letter, at, through, count)?;
        code.append(level)?;
    }
    Ok(code)
}
