//! Singleton levels, of their coordinates.
ghost use Rattle.std.specs.Prelude.{Decides, ◌≤◌};
ghost use Rattle.limits.specs.Limits.{greatest_position_count};
ghost use Rattle.singleton_level.specs.Singleton.{SingletonLevel as Level, HasParents, IsAllowed};
ghost use Rattle.singleton_level.specs.Handed.{HasWords};

use crate::coordinates::{are_below, may_follow};
use level_core::{Level as _, LevelArray, LevelKind, Span};
use singleton_level::SingletonLevel;

/// Whether there is a finished singleton level of this range and so many parents with these coordinates: one for each parent, each below
/// the range. Whether they rise below a parent of several positions is asked where there is one.
pub(crate) fn is_singleton(size: u64, unique: bool, parents: u64, coords: &[u64]) -> bool
    requires small { size ≤ greatest_position_count }
    requires few { parents ≤ greatest_position_count }
    ensures { Decides result ((l : Level) × HasWords size unique parents coords.now l) }
{
    if coords.len() as u64 != parents {
        return false;
    }
    are_below(size, coords)
}

/// Whether positions may be asked as one parent: whether their coordinates keep the order.
pub(crate) fn may_ask_singleton(level: &SingletonLevel, span: Span) -> bool
    requires parents { HasParents level.now level.now.parents }
    requires order { span.lo ≤ span.hi }
    requires within { span.hi ≤ level.now.parents }
    ensures { Decides result (IsAllowed level.now span) }
{
    let unique = level.props().unique;
    let mut last = None;
    for at in span.lo..span.hi {
        let Some(x) = level.array_word(LevelArray::Coordinates, at) else {
            return false;
        };
        if !may_follow(unique, last, x) {
            return false;
        }
        last = Some(x);
    }
    true
}
