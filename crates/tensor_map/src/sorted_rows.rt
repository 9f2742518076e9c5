// Sorts entries where they stand, and adds those of equal coordinates.
ghost use Rattle.std.specs.Prelude.{◌≡◌, ◌≤◌, ◌<◌, length, slice_index_or, slice_set, take};
ghost use Rattle.tensor_map.specs.Entries.{Entry};
ghost use Rattle.tensor_map.specs.Summed.{joined, summed, SortsAndAdds};

use crate::rows::Rows;
use numbers::Semiring;

/// Puts entries in increasing lexicographic order of their coordinates, and adds the values of equal ones, as `S` says. It
/// takes no memory.
pub(crate) fn sort_rows<S: Semiring, R: Rows>(rows: &mut R)
    ensures sorts { SortsAndAdds S.arithmetic (R.entries rows.old) (R.entries rows.new) }
    ensures shorter { length (R.entries rows.new) ≤ length (R.entries rows.old) }
{
    rows.sort_by_coords();
    let kept = add_neighbours::<S, R>(rows);
    rows.keep_first(kept);
}

/// Adds entries that follow one another with equal coordinates, and moves what is left to the front.
fn add_neighbours<S: Semiring, R: Rows>(rows: &mut R) -> usize
    ensures within { result ≤ length (R.entries rows.old) }
    ensures long { length (R.entries rows.new) ≡ length (R.entries rows.old) }
    ensures front { take result (R.entries rows.new) ≡ summed S.arithmetic (R.entries rows.old) }
{
    let count = rows.count();
    if count == 0 {
        return 0;
    }
    let mut last = 0;
    for next in 1..count {
        if rows.are_equal(next, last) {
            join::<S, R>(rows, last, next);
        } else {
            last += 1;
            if last != next {
                rows.exchange(last, next);
            }
        }
    }
    last + 1
}

/// Adds the value of one entry to that of another.
fn join<S: Semiring, R: Rows>(rows: &mut R, into: usize, from: usize)
    requires first { into < length (R.entries rows.old) }
    requires second { from < length (R.entries rows.old) }
    ensures { (d : Entry) → R.entries rows.new ≡ slice_set (R.entries rows.old) into
        (joined S.arithmetic (slice_index_or (R.entries rows.old) into d) (slice_index_or (R.entries rows.old) from d)) }
{
    let value = S::plus(rows.value_at(into), rows.value_at(from));
    rows.put_value_at(into, value);
}
