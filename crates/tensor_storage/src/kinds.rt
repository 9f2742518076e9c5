//! Levels by the letter of their kind, and the chains that they form in a format.
ghost use Rattle.std.specs.Prelude.{◌≡◌, ◌<◌, ◌+◌, length, drop, IfOk};
ghost use Rattle.format_spec.specs.Formats.{letters_of};
ghost use Rattle.tensor_storage.specs.Chains.{chain_length};
ghost use Rattle.tensor_storage.specs.Levels.{meaning};

use crate::level::{StorageLevel, new_level};
use format_spec::FormatLevel;
use level_core::{Letter, props_of};
use std::alloc::{AllocError, Global};

/// A level of this kind, of which code is made: it depends on the kind alone. Refused for want of memory alone.
pub fn kind_of(alloc: Global, letter: Letter) -> Result<StorageLevel, AllocError>
    ensures { IfOk result (λ level. meaning.kind level ≡ letter) }
{
    let level = new_level(alloc, letter, 0)?;
    Ok(level)
}

/// Where the chain of levels with groups ends that a level stands in: the number of levels through the first unique one from
/// there on.
pub fn chain_end(format: &[FormatLevel], level: usize) -> usize
    requires { level < length format.now }
    ensures { result ≡ level + chain_length (drop level (letters_of format.now)) }
{
    let mut end = level;
    while end < format.len() {
        if props_of(format[end].letter).unique {
            return end + 1;
        }
        end += 1;
    }
    end + 1
}
