// Counts that stand still at their type's end.
ghost use Rattle.outside.specs.Count.{Rises};

// One more than the count, or the count at its last value.
pub(crate) fn raised(count: u64) -> u64
    ensures { Rises count result }
{
    count.saturating_add(1)
}
