ghost use Rattle.std.specs.Prelude.{◌↔◌, ◌<◌, false, length, All, IsTrue, MatchOption};
ghost use Rattle.std.specs.List.{AllWithin, HoldsAt};
ghost use Rattle.format_spec.specs.Formats.{letters_of, Chained, InsertedBelowUnordered, IsUnordered, IsOrdered, Inserts};

use crate::format::FormatLevel;
use level_core::{caps_of, props_of};

/// Whether each level with groups has a singleton level directly below it, and each singleton level one with groups
/// directly above it.
pub(crate) fn is_chained(levels: &[FormatLevel]) -> bool
    ensures { IsTrue result ↔ Chained false (letters_of levels.now) }
{
    let mut groups = false;
    for level in levels {
        let properties = props_of(level.letter);
        if properties.branchless != groups {
            return false;
        }
        groups = !properties.unique;
    }
    !groups
}

/// The first level without order, from 0.
fn first_unordered(levels: &[FormatLevel]) -> Option<usize>
    ensures { MatchOption result
        (AllWithin IsOrdered levels.now 0 (length levels.now))
        (λ first. (first < length levels.now) × HoldsAt IsUnordered levels.now first × AllWithin IsOrdered levels.now 0 first) }
{
    levels
        .iter()
        .position(|level| !props_of(level.letter).ordered)
}

/// Whether all these levels can be inserted into.
fn are_inserted(levels: &[FormatLevel]) -> bool
    ensures { IsTrue result ↔ All Inserts levels.now }
{
    levels.iter().all(|level| caps_of(level.letter).insert)
}

/// Whether all levels below one without order can be inserted into.
pub(crate) fn is_inserted_below_unordered(levels: &[FormatLevel]) -> bool
    ensures { IsTrue result ↔ InsertedBelowUnordered (letters_of levels.now) }
{
    match first_unordered(levels) {
        None => true,
        Some(first) => are_inserted(levels.split_at(first + 1).1),
    }
}
