//! Levels of any kind, of the words that a kernel left of them.
ghost use Rattle.std.specs.Prelude.{Decides, ◌≡◌, ◌≤◌, ◌<◌};
ghost use Rattle.limits.specs.Limits.{greatest_position_count};
ghost use Rattle.level_core.specs.declared.span.Span.{Span};
ghost use Rattle.tensor_storage.specs.declared.level.StorageLevel.{StorageLevel as Level};
ghost use Rattle.tensor_storage.specs.Handed.{IsHandedOver};
ghost use Rattle.tensor_storage.specs.Levels.{meaning};
ghost use Rattle.level_checks.specs.Fitting.{positions_by};
ghost use Rattle.level_checks.specs.Widths.{IsLeastWide};

use crate::compressed::is_compressed;
use crate::dense::is_dense;
use crate::hashed::is_hashed;
use crate::singleton::{is_singleton, may_ask_singleton};
use level_core::{Letter, Span, props_of};
use tensor_storage::{LevelWords, StorageLevel};

/// Whether a finished level of this kind and range, below so many parents, has these words, and keeps the rules of its kind. Blocks of a
/// hashed level are no wider than the greatest number of coordinates below one parent wants it. Words in arrays that the kind doesn't
/// have aren't asked for.
pub fn is_level(words: &LevelWords, letter: Letter, size: u64, parents: u64) -> bool
    requires small { size ≤ greatest_position_count }
    requires few { parents ≤ greatest_position_count }
    ensures { Decides result ((l : Level) × IsHandedOver letter size parents words.now l × IsLeastWide meaning parents l) }
{
    let ends = words.ends.as_slice();
    let coordinates = words.coordinates.as_slice();
    match letter {
        Letter::Dense => is_dense(size, parents),
        Letter::Compressed => is_compressed(size, true, parents, ends, coordinates),
        Letter::CompressedGroups => is_compressed(size, false, parents, ends, coordinates),
        Letter::Singleton => is_singleton(size, true, parents, coordinates),
        Letter::SingletonGroups => is_singleton(size, false, parents, coordinates),
        Letter::Hashed => is_hashed(size, parents, words.width.as_slice(), coordinates),
    }
}

/// How many positions a level that has these words has.
pub fn level_positions(words: &LevelWords, letter: Letter, size: u64, parents: u64) -> u64
    requires { (l : Level) × IsHandedOver letter size parents words.now l }
    ensures is { result ≡ positions_by letter size parents words.now }
    ensures few { result ≤ greatest_position_count }
{
    let full = props_of(letter).full;
    if full {
        parents * size
    } else {
        words.coordinates.len() as u64
    }
}

/// Whether positions of the level above may be asked of a finished level as one parent: one position always, and several of a level
/// whose parents may be so, where its coordinates keep the order there.
pub fn may_ask(level: &StorageLevel, parents: u64, span: Span) -> bool
    requires parents { meaning.has_parents level.now parents }
    requires some { span.lo < span.hi }
    requires within { span.hi ≤ parents }
    ensures { Decides result (meaning.allowed level.now span) }
{
    match level {
        StorageLevel::Singleton(singleton) => may_ask_singleton(singleton, span),
        _ => span.hi == span.lo + 1,
    }
}
