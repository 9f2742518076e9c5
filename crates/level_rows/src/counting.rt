ghost use Rattle.std.specs.Prelude.{◌≡◌, ◌≤◌, ◌<◌, ◌+◌, ◌-◌, ◌^◌, ◌==◌, max, if◌then◌else◌, length};
ghost use Rattle.level_rows.specs.Rows.{rows_at, begun, AreTogether, IsGreatestBelow};

use crate::rows::SortedRows;

/// How many positions the rows begin.
pub fn positions_begun<R: SortedRows>(rows: &R) -> u64
    ensures { result ≡ begun (R.keys rows.now).first (R.keys rows.now).count }
{
    if rows.all_begin() {
        return rows.count() as u64;
    }
    let mut begun = 0;
    for row in 0..rows.count() {
        if rows.begins(row) {
            begun += 1;
        }
    }
    begun
}

/// How many positions stand in a list: memory has no room for many.
fn length_of(positions: &[u64]) -> usize
    ensures is { result ≡ length positions.now }
    ensures few { result ≤ 2 ^ 62 }
{
    positions.len()
}

/// The last row's parent, how many positions rows begin below it, and the greatest number that they begin below one parent.
#[derive(Clone, Copy, Debug, PartialEq, Eq, Drop)]
struct Tally {
    last: u64,
    here: u64,
    most: u64,
}

/// With one more row.
fn with_row(at: Tally, parent: u64, begins: bool) -> Tally
    requires { at.here + 1 < 2 ^ 64 }
    ensures last { result.last ≡ parent }
    ensures here { result.here ≡ (if at.last == parent then at.here else 0) + (if begins then 1 else 0) }
    ensures most { result.most ≡ max at.most result.here }
{
    let before = if at.last == parent { at.here } else { 0 };
    let here = if begins { before + 1 } else { before };
    Tally {
        last: parent,
        here,
        most: at.most.max(here),
    }
}

/// The greatest number of positions that rows begin below one parent, where the rows of each parent stand together. `parents`
/// has the position of the level above of each row.
pub fn greatest_below<R: SortedRows>(rows: &R, parents: &[u64]) -> u64
    requires many { length parents.now ≡ (R.keys rows.now).count }
    requires together { AreTogether (rows_at (R.keys rows.now) parents.now) }
    ensures greatest { IsGreatestBelow (rows_at (R.keys rows.now) parents.now) result }
    ensures few { result ≤ 2 ^ 62 }
{
    let mut at = Tally {
        last: 0,
        here: 0,
        most: 0,
    };
    for row in 0..length_of(parents) {
        at = with_row(at, parents[row], rows.begins(row));
    }
    at.most
}
