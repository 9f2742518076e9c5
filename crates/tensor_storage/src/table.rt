ghost use Rattle.std.specs.Prelude.{◌≡◌, ◌<◌, ◌≤◌, ℕ, not, true, IfSome};
ghost use Rattle.tensor_storage.specs.Tables.{Table, AllApart, agree, begins_at, keys_of, level_column, row_values};
ghost use Rattle.std.proofs.Props.{props};

use level_rows::{RowValues, SortedRows};

/// Rows that a tensor is packed from: of each its coordinates in the order of the levels, and its value.
pub trait RowTable {
    /// How many rows, their coordinates, and their values.
    ghost table: { Self → Table };

    /// How many rows there are.
    fn count(&self) -> usize
        ensures { result ≡ (table self.now).count };

    /// The coordinate of a row at a level, counted from 0.
    fn coord(&self, level: usize, row: usize) -> u64
        requires { row < (table self.now).count }
        ensures { result ≡ (table self.now).coords level row };

    /// The value of a row.
    fn value(&self, row: usize) -> u64
        requires { row < (table self.now).count }
        ensures { result ≡ (table self.now).values row };

    /// The coordinates of all rows at a level, counted from 0, where they stand next to one another with four bytes each.
    fn column(&self, level: usize) -> Option<&[u32]>
        ensures { IfSome result (λ column. column.now ≡ level_column (table self.now) level) };

    /// The values of all rows, where they stand next to one another.
    fn values(&self) -> Option<&[u64]>
        ensures { IfSome result (λ values. values.now ≡ row_values (table self.now)) };
}

/// Whether two rows have the same coordinates at the first levels. Rows in order mostly differ at the last of these.
fn rows_agree<T: RowTable>(table: &T, levels: usize, row: usize, other: usize) -> bool
    requires row { row < (T.table table.now).count }
    requires other { other < (T.table table.now).count }
    ensures { result ≡ agree (T.table table.now).coords levels row other }
{
    for level in (0..levels).rev() {
        if table.coord(level, row) != table.coord(level, other) {
            return false;
        }
    }
    true
}

/// The rows of a table as a level takes them: its number, and how many of the first levels tell rows apart that begin positions.
#[derive(Drop)]
pub(crate) struct LevelRows<'a, T> {
    pub(crate) table: &'a T,
    pub(crate) level: usize,
    pub(crate) through: usize,
}

impl<'a, T: RowTable> SortedRows for LevelRows<'a, T> {
    ghost keys = { λ rows. keys_of (T.table rows.table.now) rows.level rows.through };

    fn count(&self) -> usize {
        self.table.count()
    }

    fn coord(&self, row: usize) -> u64 {
        self.table.coord(self.level, row)
    }

    fn begins(&self, row: usize) -> bool {
        if row == 0 {
            return true;
        }
        !rows_agree(self.table, self.through, row - 1, row)
    }

    fn all_begin(&self) -> bool {
        false
    }

    fn column(&self) -> Option<&[u32]> {
        None
    }
}

impl<'a, T: RowTable> RowValues for LevelRows<'a, T> {
    ghost values = { λ rows. (T.table rows.table.now).values };

    fn value(&self, row: usize) -> u64 {
        self.table.value(row)
    }
}

/// Whether two rows differ at one of the first levels: they have the same coordinate at one of these.
#[inline(never)]
fn differ_elsewhere<T: RowTable>(
    table: &T,
    level: usize,
    through: usize,
    row: usize,
    other: usize,
) -> bool
    requires row { row < (T.table table.now).count }
    requires other { other < (T.table table.now).count }
    requires level { level < through }
    requires same { (T.table table.now).coords level row ≡ (T.table table.now).coords level other }
    ensures { result ≡ not (agree (T.table table.now).coords through row other) }
{
    if level + 1 == through {
        return !rows_agree(table, level, row, other);
    }
    !rows_agree(table, through, row, other)
}

/// The rows of a table as a level takes them whose coordinates stand next to one another: its number, and how many of the first levels,
/// it among them, tell rows apart that begin positions.
#[derive(Drop)]
pub(crate) struct ColumnRows<'a, T: RowTable> {
    pub(crate) table: &'a T,
    pub(crate) level: usize,
    pub(crate) through: usize,
    pub(crate) column: &'a [u32],
    /// Whether it is known that these levels tell all rows apart.
    pub(crate) all_begin: bool,
    ghost lent: { column.now ≡ level_column (T.table table.now) level } by { Prim.hlevel props },
    ghost among: { level < through },
    ghost apart: { all_begin ≡ true → AllApart (T.table table.now) through } by { Prim.hlevel props },
}

impl<'a, T: RowTable> SortedRows for ColumnRows<'a, T> {
    ghost keys = { λ rows. keys_of (T.table rows.table.now) rows.level rows.through };

    fn count(&self) -> usize {
        self.table.count()
    }

    #[inline(always)]
    fn coord(&self, row: usize) -> u64 {
        self.column[row] as u64
    }

    /// Rows mostly differ at the level itself, whose coordinates are at hand: others are looked at where they don't.
    #[inline(always)]
    fn begins(&self, row: usize) -> bool {
        if row == 0 {
            return true;
        }
        if self.all_begin {
            return true;
        }
        let before = row - 1;
        if self.column[before] != self.column[row] {
            return true;
        }
        differ_elsewhere(self.table, self.level, self.through, before, row)
    }

    fn all_begin(&self) -> bool {
        self.all_begin
    }

    fn column(&self) -> Option<&[u32]> {
        Some(self.column)
    }
}
