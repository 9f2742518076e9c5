//! Which levels without order have to be gathered before a loop: those of accesses that stand in a part of the body which remains where no
//! access with coordinates in order is present. Any other one is found at the coordinates of those.

ghost use Rattle.std.specs.Prelude.{◌≡◌, IfOk};
ghost use Rattle.kernel_emit.specs.Gathering.{gathered_of};
ghost use Rattle.loop_code.specs.Parts.{is_iterator, is_other};

use crate::presence::{Accesses, is_live_below};
use loop_code::{LoopCode, Seek};
use std::alloc::{AllocError, Global};
use trees::Items;

/// Whether a level of the access that isn't full is among these.
fn is_iterator(walked: &[Seek], access: usize) -> bool
    ensures { result ≡ is_iterator walked.now access }
{
    let Some((first, others)) = walked.split_first() else {
        return false;
    };
    (first.access == access && !first.full) || is_iterator(others, access)
}

/// The accesses of which no level that isn't full is among these.
#[derive(Drop)]
struct Others<'a> {
    walked: &'a [Seek],
}

impl<'a> Accesses for Others<'a> {
    ghost have = { λ a k. is_other a.walked.now k };

    fn has(&self, access: usize) -> bool {
        !is_iterator(self.walked, access)
    }
}

/// The accesses of which a level without order has to be gathered before a loop, of those with levels that are sought there: `walked` are
/// the levels that cursors go over by their positions. Refused only for want of memory.
pub(crate) fn gathered_of(
    alloc: Global,
    walked: &[Seek],
    body: &LoopCode,
    seeks: &[Seek],
) -> Result<Items<usize>, AllocError>
    ensures { IfOk result (λ accesses. accesses ≡ gathered_of walked.now body.now seeks.now) }
{
    let Some((first, others)) = seeks.split_first() else {
        return Ok(Items::new(alloc));
    };
    let rest = gathered_of(alloc, walked, body, others)?;
    let present = Others { walked };
    if !is_live_below(body, &present, first.access) {
        return Ok(rest);
    }
    let mut all = Items::new(alloc);
    all.push(first.access)?;
    all.append(rest)?;
    Ok(all)
}
