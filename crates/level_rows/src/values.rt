ghost use Rattle.std.specs.Prelude.{◌≡◌, ◌≢◌, ◌<◌, ℕ, length, slice_index};
ghost use Rattle.level_rows.specs.Values.{StoresValues};

use crate::rows::SortedRows;

/// Rows that have values.
pub trait RowValues: SortedRows {
    /// The value of each row.
    ghost values: { Self → ℕ → ℕ };

    /// The value of a row.
    fn value(&self, row: usize) -> u64
        requires { row < (Self.keys self.now).count }
        ensures { result ≡ values self.now row };
}

/// Stores the value of each row at its position, of which no two rows have the same. All other values stay.
pub fn store_values<R: RowValues>(rows: &R, positions: &[u64], values: &mut [u64])
    requires many { length positions.now ≡ (R.keys rows.now).count }
    requires within { (i : ℕ) → i < (R.keys rows.now).count → slice_index positions.now i < length values.old }
    requires apart { (i j : ℕ) → i < j → j < (R.keys rows.now).count → slice_index positions.now i ≢ slice_index positions.now j }
    ensures { StoresValues (R.keys rows.now).count (slice_index positions.now) (R.values rows.now) values.old values.new }
{
    for row in 0..positions.len() {
        values[positions[row] as usize] = rows.value(row);
    }
}
