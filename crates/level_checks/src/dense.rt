//! Dense levels, which have no words but their range.
ghost use Rattle.std.specs.Prelude.{Decides, ◌≤◌};
ghost use Rattle.limits.specs.Limits.{greatest_position_count};
ghost use Rattle.dense_level.specs.Dense.{HasParents};

use limits::greatest_positions;

/// Whether there is a dense level of this range and so many parents: its positions are within the limit.
pub(crate) fn is_dense(size: u64, parents: u64) -> bool
    requires small { size ≤ greatest_position_count }
    requires few { parents ≤ greatest_position_count }
    ensures { Decides result (HasParents size parents) }
{
    parents as u128 * size as u128 <= greatest_positions() as u128
}
