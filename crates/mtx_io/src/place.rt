ghost use Rattle.std.specs.Prelude.{◌≡◌, ◌∷◌, [], length};

/// A place in a matrix. Rows and columns are counted from 0.
#[derive(Clone, Copy, Debug, PartialEq, Eq)]
pub(crate) struct Place {
    pub(crate) row: u64,
    pub(crate) column: u64,
}

/// The numbers that a line of a row, a column and a value was read to. Row and column are counted from 1.
#[derive(Clone, Copy, Debug, PartialEq, Eq)]
pub(crate) struct PlainLine {
    pub(crate) row: u64,
    pub(crate) column: u64,
    pub(crate) value: i64,
}

/// A place and the value there.
#[derive(Clone, Copy, Debug, PartialEq, Eq)]
pub(crate) struct PlacedValue {
    pub(crate) place: Place,
    pub(crate) value: u64,
}

/// A line's row and column, and its value.
#[inline(always)]
pub(crate) fn plain_line(numbers: &[u64], value: i64) -> PlainLine
    requires { length numbers.now ≡ 2 }
    ensures numbers { result.row ∷ result.column ∷ [] ≡ numbers.now }
    ensures value { result.value ≡ value }
{
    PlainLine {
        row: numbers[0],
        column: numbers[1],
        value,
    }
}
