//! Behind the last row: each level's last parent is given its positions.
ghost use Rattle.std.specs.Prelude.{◌≡◌, ◌≤◌, ◌<◌, ◌*◌, ◌+◌, ◌^◌, length, IfOk};
ghost use Rattle.format_spec.specs.Formats.{letters_of};
ghost use Rattle.appended_results.specs.Codes.{HasRoom};
ghost use Rattle.appended_results.specs.Ends.{EndsOne, EndsFirst};

use format_spec::FormatLevel;
use kernel_code::KStmt;
use level_appends::{AppendSite, end_level};
use level_core::{Letter, props_of};
use std::alloc::{AllocError, Global};
use tensor_storage::kind_of;
use trees::Items;

/// Code that gives the last parent of a level of this kind its positions, if it stores any. Refused for want of memory alone.
fn end_one(
    alloc: Global,
    letter: Letter,
    at: AppendSite,
    free: u64,
) -> Result<Items<KStmt>, AllocError>
    requires cursor { at.base + 3 ≤ free }
    requires room { free ≤ 2 ^ 62 }
    ensures { IfOk result (EndsOne letter at.level at.base free) }
{
    if props_of(letter).full {
        return Ok(Items::new(alloc));
    }
    let level = kind_of(alloc, letter)?;
    let code = end_level(alloc, &level, at, free)?;
    Ok(code)
}

/// Code behind the last row of a result of this format: it gives the last parent of each level its positions. Variables from `free` on are
/// its own. Refused for want of memory alone.
pub fn end_levels(
    alloc: Global,
    format: &[FormatLevel],
    base: u64,
    free: u64,
) -> Result<Items<KStmt>, AllocError>
    requires room { HasRoom (length format.now) base free }
    ensures { IfOk result (EndsFirst (letters_of format.now) base free (length format.now)) }
{
    let mut code = Items::new(alloc);
    for above in 0..format.len() {
        let at = AppendSite {
            level: above as u64 + 1,
            base: base + 4 * above as u64,
        };
        let level = end_one(alloc, format[above].letter, at, free)?;
        code.append(level)?;
    }
    Ok(code)
}
