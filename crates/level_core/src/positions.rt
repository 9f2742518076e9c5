ghost use Rattle.std.specs.Prelude.{◌≤◌, ◌<◌, ℕ};
ghost use Rattle.limits.specs.Limits.{greatest_position_count};
ghost use Rattle.level_core.specs.Entries.{one, ShareOut};

use crate::level::Level;
use crate::span::Span;

/// The number of positions below so many parents, each of which may be asked: each position below that number is below
/// exactly one of them. A storage keeps one value for each.
pub fn positions_below<L: Level>(level: &L, parents: u64) -> u64
    requires { (p : ℕ) → p < parents → L.meaning.allowed level.now (one p) }
    ensures share { ShareOut (L.meaning.segment_of level.now) parents result }
    ensures within { result ≤ greatest_position_count }
{
    if parents == 0 {
        return 0;
    }
    let last = parents - 1;
    let parent = Span {
        lo: last,
        hi: last + 1,
    };
    level.segment(parent).hi
}
