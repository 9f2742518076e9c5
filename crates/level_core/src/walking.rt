ghost use Rattle.std.specs.Prelude.{◌≡◌, IfOk};

use crate::level::Level;
use crate::span::{Entry, Span};
use std::alloc::{AllocError, Global};
use trees::Items;

/// The coordinates below an allowed parent, each with its child positions, in the order of positions. Refused for
/// want of memory alone.
pub fn walk<L: Level>(alloc: Global, level: &L, parent: Span) -> Result<Items<Entry>, AllocError>
    requires { L.meaning.allowed level.now parent }
    ensures { IfOk result (λ entries. entries ≡ L.meaning.entries level.now parent) }
{
    let segment = level.segment(parent);
    let mut entries = Items::new(alloc);
    let mut position = segment.lo;
    while position < segment.hi {
        match level.coord(position) {
            None => position += 1,
            Some(coord) => {
                let child = level.child(position, segment);
                entries.push(Entry { coord, child })?;
                position = child.hi;
            }
        }
    }
    Ok(entries)
}
