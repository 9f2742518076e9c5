//! How many positions a level has, which are the parents of the level below it.
ghost use Rattle.std.specs.Prelude.{◌≡◌};
ghost use Rattle.tensor_storage.specs.Levels.{meaning};
ghost use Rattle.storage_arrays.specs.Arrays.{positions_in};

use level_core::{Level, Span};
use tensor_storage::StorageLevel;

/// How many positions a finished level has.
pub fn positions_of(level: &StorageLevel, parents: u64) -> u64
    requires { meaning.has_parents level.now parents }
    ensures { result ≡ positions_in parents level.now }
{
    if parents == 0 {
        return 0;
    }
    let last = Span {
        lo: parents - 1,
        hi: parents,
    };
    level.segment(last).hi
}
