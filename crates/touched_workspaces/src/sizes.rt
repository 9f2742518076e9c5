//! How large a range may be for which a workspace keeps a mark and a sum for each coordinate.
ghost use Rattle.std.specs.Prelude.{◌≡◌};
ghost use Rattle.touched_workspaces.specs.Sizes.{greatest_marked_range};

/// The greatest range of a key for which a workspace keeps a mark and a sum for each coordinate: 2^20.
pub const GREATEST_MARKED_RANGE: u64 = 1_048_576;

/// The same, named.
#[tactic(auto, unfolding(crate::specs::Sizes::greatest_marked_range))]
pub fn greatest_range_of_marks() -> u64
    ensures { result ≡ greatest_marked_range }
{
    GREATEST_MARKED_RANGE
}
