//! Coordinates in a list: their range, and their order.
ghost use Rattle.std.specs.Prelude.{Decides, ◌≤◌};
ghost use Rattle.level_core.specs.GroupLaws.{CoordsBelow};
ghost use Rattle.level_core.specs.Logs.{Rises};
ghost use Rattle.level_checks.specs.Orders.{least_behind};

/// Whether each coordinate is below the range.
pub(crate) fn are_below(size: u64, coords: &[u64]) -> bool
    ensures { Decides result (CoordsBelow size coords.now) }
{
    for x in coords {
        if *x >= size {
            return false;
        }
    }
    true
}

/// Whether a coordinate may stand behind another: above it where each stands once, else at least as great.
pub(crate) fn may_follow(unique: bool, last: Option<u64>, x: u64) -> bool
    ensures { Decides result (least_behind unique last ≤ x) }
{
    match last {
        None => true,
        Some(last) => if unique { last < x } else { last <= x },
    }
}

/// Whether coordinates rise: strictly where each stands once, else they never fall.
pub(crate) fn rise(unique: bool, coords: &[u64]) -> bool
    ensures { Decides result (Rises unique 0 coords.now) }
{
    let mut last = None;
    for x in coords {
        if !may_follow(unique, last, *x) {
            return false;
        }
        last = Some(*x);
    }
    true
}
