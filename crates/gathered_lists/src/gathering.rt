//! The code that gathers the entries below a parent.
ghost use Rattle.std.specs.Prelude.{◌≡◌, ◌≤◌, ◌^◌, IfOk};
ghost use Rattle.level_core.specs.Fragments.{AreArguments};
ghost use Rattle.gathered_lists.specs.Gathered.{IsGathered, Gathers};

use crate::codes::gather;
use kernel_code::{KExpr, KStmt};
use level_core::LevelKind;
use std::alloc::{AllocError, Global};
use trees::Items;

/// A level of a kernel's tensor, counted from 1.
#[derive(Clone, Copy, Debug, PartialEq, Eq, Drop)]
pub struct LevelSite {
    pub tensor: u64,
    pub level: u64,
}

/// Code that leaves the entries below a parent, whose two ends are given, in a scratch list, in increasing order of their coordinates,
/// where the flag isn't 0, and else leaves the list without rows. The list has to be there, whatever rows it has. Variables from `top` on
/// are free for it. Refused for want of memory alone.
pub fn gather_entries<L: LevelKind>(
    alloc: Global,
    kind: &L,
    at: LevelSite,
    list: u64,
    flag: KExpr,
    parent: &[KExpr],
    top: u64,
) -> Result<Items<KStmt>, AllocError>
    requires gathered { IsGathered (L.meaning.kind kind.now) }
    requires parent { AreArguments 2 top parent.now }
    requires top { top ≤ 2 ^ 62 }
    ensures { IfOk result (Gathers L.meaning (L.meaning.kind kind.now) at.tensor at.level list top flag parent.now) }
{
    let segment = kind.frag_segment(alloc, at.tensor, at.level, parent, top)?;
    let position = [KExpr::Var(top)];
    let coord = kind.frag_coord(alloc, at.tensor, at.level, &position, top + 2)?;
    let code = gather(alloc, list, top, flag, segment, coord)?;
    Ok(code)
}
