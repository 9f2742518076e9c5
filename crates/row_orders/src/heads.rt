//! The levels of a format through the last that isn't dense.
ghost use Rattle.std.specs.Prelude.{◌≡◌, ◌≤◌, length, take};
ghost use Rattle.std.specs.List.{list_all, list_any};
ghost use Rattle.format_spec.specs.Formats.{IsFormat};
ghost use Rattle.row_orders.specs.Heads.{is_dense, head_levels};
ghost use Rattle.row_orders.specs.Takings.{is_unordered};

use format_spec::{Format, FormatLevel};
use level_core::props_of;

/// Whether a level is dense.
fn is_dense(level: FormatLevel) -> bool
    ensures { result ≡ is_dense level }
{
    props_of(level.letter).full
}

/// Whether coordinates are inserted into a level without order.
fn is_unordered(level: FormatLevel) -> bool
    ensures { result ≡ is_unordered level }
{
    !props_of(level.letter).ordered
}

/// Whether all levels of a format are dense.
pub(crate) fn is_all_dense(format: &Format) -> bool
    ensures { result ≡ list_all is_dense format.now }
{
    format.levels().iter().all(|level| is_dense(*level))
}

/// Whether some level of a format has no order, so that coordinates are inserted into it. It takes no memory.
pub fn has_unordered(format: &Format) -> bool
    ensures { result ≡ list_any is_unordered format.now }
{
    format.levels().iter().any(|level| is_unordered(*level))
}

/// How many levels of a format, from the top, there are through the last that isn't dense: none where all are. The levels below are
/// dense.
pub fn head_length(format: &Format) -> usize
    ensures levels { take result format.now ≡ head_levels format.now }
    ensures value { result ≡ length (head_levels format.now) }
    ensures within { result ≤ length format.now }
    ensures format { IsFormat format.now }
{
    let mut length = 0;
    for (depth, level) in format.levels().iter().enumerate() {
        if !is_dense(*level) {
            length = depth + 1;
        }
    }
    length
}
