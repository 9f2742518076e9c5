//! Levels of the words that a kernel leaves.
ghost use Rattle.std.specs.Prelude.{◌≡◌, ◌≤◌, ℕ, true, IfOk};
ghost use Rattle.limits.specs.Limits.{greatest_position_count};
ghost use Rattle.level_core.specs.Logs.{running, total};

use crate::compressed::CompressedLevel;
use coordinate_lists::{Indices, needs_wide};
use level_core::Stage;
use std::alloc::{AllocError, Global};

/// The sums of numbers, in a wide list. Refused for want of memory alone.
fn sums_of(alloc: Global, numbers: &[u64]) -> Result<Indices, AllocError>
    requires { total numbers.now ≤ greatest_position_count }
    ensures items { IfOk result (λ sums. sums.items ≡ running 0 numbers.now) }
    ensures wide { IfOk result (λ sums. sums.wide ≡ true) }
{
    let mut sums = Indices::new(alloc, true);
    sums.reserve(numbers.len() as u64)?;
    let mut sum = 0;
    for number in numbers {
        sum += *number;
        sums.push(sum);
    }
    Ok(sums)
}

impl CompressedLevel {
    ghost use Rattle.compressed_level.specs.Compressed.{CompressedLevel as Level};
    ghost use Rattle.compressed_level.specs.Handed.{HasWords, summed};

    /// The finished level of numbers of positions behind a zero, whose sums are its segment ends, and of coordinates. Refused for want
    /// of memory alone.
    pub fn from_words(
        alloc: Global,
        n: u64,
        unique: bool,
        numbers: &[u64],
        coords: &[u64],
    ) -> Result<CompressedLevel, AllocError>
        requires { (parents : ℕ) × (l : Level) × HasWords n unique parents numbers.now coords.now l }
        ensures { IfOk result (λ l. (spare : ℕ) × (l ≡ summed n unique numbers.now coords.now spare)) }
    {
        let ends = sums_of(alloc, numbers)?;
        let coords = Indices::copied(alloc, needs_wide(n), coords)?;
        let next = ends.len().saturating_sub(1);
        Ok(CompressedLevel {
            size: n,
            unique,
            stage: Stage::Finished,
            ends,
            coords,
            next,
        })
    }
}
