//! The ranges of levels.
ghost use Rattle.std.specs.Prelude.{◌≡◌, ◌≤◌, ◌<◌, All, length, slice_index, IfOk};
ghost use Rattle.limits.specs.Limits.{greatest_position_count};
ghost use Rattle.format_spec.specs.Formats.{IsFormat};
ghost use Rattle.tensor_storage.specs.Storages.{in_level_order};

use format_spec::FormatLevel;
use std::alloc::{AllocError, Global};

/// The range of a mode.
fn range_of(ranges: &[u64], mode: usize) -> u64
    requires { mode < length ranges.now }
    ensures { result ≡ slice_index ranges.now mode }
{
    ranges[mode]
}

/// The ranges of the levels of a format, by the ranges of its modes. Refused for want of memory alone.
pub fn level_sizes(
    alloc: Global,
    format: &[FormatLevel],
    ranges: &[u64],
) -> Result<Vec<u64>, AllocError>
    requires format { IsFormat format.now }
    requires enough { length format.now ≤ length ranges.now }
    requires small { All (λ range. range ≤ greatest_position_count) ranges.now }
    ensures sizes { IfOk result (λ sizes. sizes.items ≡ in_level_order format.now ranges.now) }
    ensures small { IfOk result (λ sizes. All (λ size. size ≤ greatest_position_count) sizes.items) }
{
    let mut sizes = Vec::with_capacity(alloc, format.len())?;
    for level in 0..format.len() {
        sizes.push(range_of(ranges, format[level].mode))?;
    }
    Ok(sizes)
}
