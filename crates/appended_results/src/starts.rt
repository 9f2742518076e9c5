//! Before the first row: the variables of each level are set.
ghost use Rattle.std.specs.Prelude.{◌≡◌, ◌≤◌, ◌<◌, ◌*◌, ◌+◌, ◌^◌, length, IfOk};
ghost use Rattle.format_spec.specs.Formats.{letters_of};
ghost use Rattle.appended_results.specs.Begins.{BeginsOne, BeginsFirst};

use format_spec::FormatLevel;
use kernel_code::KStmt;
use level_appends::begin_cursor;
use level_core::{Letter, props_of};
use std::alloc::{AllocError, Global};
use trees::Items;

/// Code that sets the cursor of a level of this kind, if it is appended to. Refused for want of memory alone.
fn begin_one(alloc: Global, letter: Letter, base: u64) -> Result<Items<KStmt>, AllocError>
    requires { base ≤ 2 ^ 62 }
    ensures { IfOk result (BeginsOne letter base) }
{
    if props_of(letter).full {
        return Ok(Items::new(alloc));
    }
    let code = begin_cursor(alloc, base)?;
    Ok(code)
}

/// Code before the first row of a result of this format, which sets its variables: four for each level, from `base` on. Refused for want of
/// memory alone.
pub fn begin_levels(
    alloc: Global,
    format: &[FormatLevel],
    base: u64,
) -> Result<Items<KStmt>, AllocError>
    requires { base + 4 * length format.now ≤ 2 ^ 62 }
    ensures { IfOk result (BeginsFirst (letters_of format.now) (length format.now) base (length format.now)) }
{
    let mut code = Items::new(alloc);
    for above in 0..format.len() {
        let cursor = base + 4 * above as u64;
        let level = begin_one(alloc, format[above].letter, cursor)?;
        code.append(level)?;
    }
    Ok(code)
}
