//! Levels made of the words that a kernel leaves of them.
ghost use Rattle.std.specs.Prelude.{◌≡◌, ◌≤◌, ℕ, IfOk, IsOk, true};
ghost use Rattle.limits.specs.Limits.{greatest_position_count};
ghost use Rattle.level_core.specs.Kinds.{properties};
ghost use Rattle.compressed_level.specs.Compressed as compressed;
ghost use Rattle.compressed_level.specs.Handed as compressed_words;
ghost use Rattle.singleton_level.specs.Singleton as singleton;
ghost use Rattle.singleton_level.specs.Handed as singleton_words;
ghost use Rattle.hashed_level.specs.Hashed as hashed;
ghost use Rattle.tensor_storage.specs.Handed.{IsHandedOver, AreAlike, HasSlots, no_words};
ghost use Rattle.tensor_storage.specs.declared.level.StorageLevel.{StorageLevel as Level};
ghost use Rattle.tensor_storage.specs.declared.level.StorageLevel.TheVariants.{Dense as OfDense, Compressed as OfCompressed};
ghost use Rattle.tensor_storage.specs.declared.level.StorageLevel.TheVariants.{Singleton as OfSingleton, Hashed as OfHashed};

use crate::level::StorageLevel;
use compressed_level::CompressedLevel;
use dense_level::DenseLevel;
use hashed_level::HashedLevel;
use level_core::Letter;
use seg_buffer::Segment;
use singleton_level::SingletonLevel;
use std::alloc::{AllocError, Global};

/// The words that a kernel leaves of a level of its result, array by array: none of those that the level doesn't have. Its range isn't
/// among them.
#[derive(Drop)]
pub struct LevelWords {
    /// The number of positions of each parent, behind a zero.
    pub ends: Segment<u64>,
    /// How many slots each parent has, one word.
    pub width: Segment<u64>,
    /// The coordinate at each position; the last word stands in an empty slot.
    pub coordinates: Segment<u64>,
}

impl LevelWords {
    /// No words. It takes no memory.
    pub fn none(alloc: Global) -> LevelWords
        ensures { result ≡ no_words }
    {
        LevelWords {
            ends: Segment::new(alloc),
            width: Segment::new(alloc),
            coordinates: Segment::new(alloc),
        }
    }
}

/// A dense level. It takes no memory.
fn dense_of(alloc: Global, size: u64) -> Result<StorageLevel, AllocError>
    requires { size ≤ greatest_position_count }
    ensures made { IfOk result (λ level. level ≡ OfDense size) }
    ensures always { IsOk result }
{
    match DenseLevel::new(alloc, size) {
        Ok(level) => Ok(StorageLevel::Dense(level)),
        Err(refusal) => Err(refusal),
    }
}

/// The compressed level of its words.
fn compressed_of(
    alloc: Global,
    size: u64,
    unique: bool,
    words: &LevelWords,
) -> Result<StorageLevel, AllocError>
    requires { (parents : ℕ) × (l : compressed.CompressedLevel)
        × compressed_words.HasWords size unique parents words.now.ends.items words.now.coordinates.items l }
    ensures { IfOk result (λ level. (spare : ℕ)
        × (level ≡ OfCompressed (compressed_words.summed size unique words.now.ends.items words.now.coordinates.items spare))) }
{
    let ends = words.ends.as_slice();
    let coordinates = words.coordinates.as_slice();
    let level = CompressedLevel::from_words(alloc, size, unique, ends, coordinates)?;
    Ok(StorageLevel::Compressed(level))
}

/// The singleton level of its words.
fn singleton_of(
    alloc: Global,
    size: u64,
    unique: bool,
    words: &LevelWords,
) -> Result<StorageLevel, AllocError>
    requires { (parents : ℕ) × (l : singleton.SingletonLevel)
        × singleton_words.HasWords size unique parents words.now.coordinates.items l }
    ensures { IfOk result (λ level. (spare : ℕ)
        × (level ≡ OfSingleton (singleton_words.listed size unique words.now.coordinates.items spare))) }
{
    let coordinates = words.coordinates.as_slice();
    let level = SingletonLevel::from_words(alloc, size, unique, coordinates)?;
    Ok(StorageLevel::Singleton(level))
}

/// The hashed level of its words, whose slots are taken as they stand. It takes no memory.
fn hashed_of(alloc: Global, size: u64, parents: u64, words: LevelWords) -> StorageLevel
    requires { (l : hashed.Hashed) × HasSlots size parents words l }
    ensures { (l : hashed.Hashed) → HasSlots size parents words l
        → result ≡ OfHashed l }
{
    let LevelWords {
        ends: _ends,
        width,
        coordinates,
    } = words;
    let level = HashedLevel::from_slots(alloc, size, width.get(0), parents, coordinates);
    StorageLevel::Hashed(level)
}

impl LevelWords {
    /// The finished level of this kind and range, below so many parents, that has these words. Refused for want of memory alone, and
    /// never where it is full.
    pub fn into_level(
        self,
        alloc: Global,
        letter: Letter,
        size: u64,
        parents: u64,
    ) -> Result<StorageLevel, AllocError>
        requires small { size ≤ greatest_position_count }
        requires handed { (l : Level) × IsHandedOver letter size parents self l }
        ensures alike { IfOk result (λ made. (l : Level) → IsHandedOver letter size parents self l → AreAlike l made) }
        ensures full { (properties letter).full ≡ true → IsOk result }
    {
        match letter {
            Letter::Dense => dense_of(alloc, size),
            Letter::Compressed => compressed_of(alloc, size, true, &self),
            Letter::CompressedGroups => compressed_of(alloc, size, false, &self),
            Letter::Singleton => singleton_of(alloc, size, true, &self),
            Letter::SingletonGroups => singleton_of(alloc, size, false, &self),
            Letter::Hashed => Ok(hashed_of(alloc, size, parents, self)),
        }
    }
}
