//! A level of any kind: each kind is a variant, and has its arm in each macro here.
ghost use Rattle.std.specs.Prelude.{◌≤◌, IfOk};
ghost use Rattle.limits.specs.Limits.{greatest_position_count};
ghost use Rattle.tensor_storage.specs.Levels.{meaning};
ghost use Rattle.tensor_storage.specs.New.{IsNew};

use compressed_level::CompressedLevel;
use dense_level::DenseLevel;
use hashed_level::HashedLevel;
use level_core::Letter;
use singleton_level::SingletonLevel;
use std::alloc::{AllocError, Global};

/// A level of any kind.
#[derive(Drop)]
pub enum StorageLevel {
    Dense(DenseLevel),
    /// Unique or with groups.
    Compressed(CompressedLevel),
    /// Unique or with groups.
    Singleton(SingletonLevel),
    Hashed(HashedLevel),
}

/// What a call answers of the level in it, whichever kind that is of.
macro_rules! of_each_kind {
    ($level:expr, $it:ident => $answer:expr) => {
        match $level {
            StorageLevel::Dense($it) => $answer,
            StorageLevel::Compressed($it) => $answer,
            StorageLevel::Singleton($it) => $answer,
            StorageLevel::Hashed($it) => $answer,
        }
    };
}

/// What a call that appends does to the level in it, if that is of a kind that is appended to.
macro_rules! of_each_appended {
    ($level:expr, $it:ident => $answer:expr, $other:expr) => {
        match $level {
            StorageLevel::Compressed($it) => $answer,
            StorageLevel::Singleton($it) => $answer,
            StorageLevel::Dense(_) | StorageLevel::Hashed(_) => $other,
        }
    };
}

/// What a call that inserts does to the level in it, if that is of a kind that is inserted into.
macro_rules! of_each_inserted {
    ($level:expr, $it:ident => $answer:expr, $other:expr) => {
        match $level {
            StorageLevel::Dense($it) => $answer,
            StorageLevel::Hashed($it) => $answer,
            StorageLevel::Compressed(_) | StorageLevel::Singleton(_) => $other,
        }
    };
}

pub(crate) use of_each_appended;
pub(crate) use of_each_inserted;
pub(crate) use of_each_kind;

/// A level of this kind, for coordinates below `size`. Refused for want of memory alone.
pub(crate) fn new_level(
    alloc: Global,
    letter: Letter,
    size: u64,
) -> Result<StorageLevel, AllocError>
    requires { size ≤ greatest_position_count }
    ensures { IfOk result (IsNew meaning letter size) }
{
    let level = match letter {
        Letter::Dense => StorageLevel::Dense(DenseLevel::new(alloc, size)?),
        Letter::Compressed => { StorageLevel::Compressed(CompressedLevel::new(alloc, size, true)?) }
        Letter::CompressedGroups => {
            StorageLevel::Compressed(CompressedLevel::new(alloc, size, false)?)
        }
        Letter::Singleton => StorageLevel::Singleton(SingletonLevel::new(alloc, size, true)?),
        Letter::SingletonGroups => {
            StorageLevel::Singleton(SingletonLevel::new(alloc, size, false)?)
        }
        Letter::Hashed => StorageLevel::Hashed(HashedLevel::new(alloc, size)?),
    };
    Ok(level)
}
