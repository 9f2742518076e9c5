ghost use Rattle.std.specs.Prelude.{◌≡◌, ◌<◌, ℕ, true, IfSome};
ghost use Rattle.level_rows.specs.Rows.{AllBegin, HasCoords, Keys};

/// Rows for a level, in the order in which they are taken: of each its coordinate, and whether it begins a position. The
/// positions of the level above stand in a list of their own.
pub trait SortedRows {
    /// How many rows, their coordinates, and which of them begin a position.
    ghost keys: { Self → Keys };

    /// How many rows there are.
    fn count(&self) -> usize
        ensures { result ≡ (keys self.now).count };

    /// The coordinate of a row.
    fn coord(&self, row: usize) -> u64
        requires { row < (keys self.now).count }
        ensures { result ≡ (keys self.now).coord row };

    /// Whether the row begins a position: else it shares that of the row before.
    fn begins(&self, row: usize) -> bool
        requires { row < (keys self.now).count }
        ensures { result ≡ (keys self.now).first row };

    /// Whether it is known that each row begins a position: then none is asked.
    fn all_begin(&self) -> bool
        ensures { result ≡ true → AllBegin (keys self.now) };

    /// The coordinates of all rows, where they stand next to one another with four bytes each.
    fn column(&self) -> Option<&[u32]>
        ensures { IfSome result (λ column. HasCoords (keys self.now) column.now) };
}
