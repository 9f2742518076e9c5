/// What is wrong with a line of a file. The reader of each format says which of these it tells.
#[derive(Clone, Copy, Debug, PartialEq, Eq)]
pub enum LineKind {
    /// It is too long.
    LongLine,
    /// The first line is no banner of a matrix of integers.
    BadBanner,
    /// The matrix is skew-symmetric, and values have no minus.
    NoMinus,
    /// The size line is none.
    BadSize,
    /// It comes after the last entry that was due.
    Extra,
    /// It has another number of tokens than an entry.
    Fields,
    /// A token is no number, or a coordinate isn't one or more digits.
    NotNumber,
    /// The value is a decimal number, but not written as a whole one.
    NotWhole,
    /// A number is out of range.
    NumRange,
    /// The value is below 0, and values have no sign.
    Negative,
    /// A coordinate is 0: coordinates are counted from 1.
    ZeroCoordinate,
    /// A row or a column is above the size.
    CoordRange,
    /// An entry of a skew-symmetric matrix is on the diagonal.
    SkewDiagonal,
    /// The file ends before this line, and the size line or an entry was still due.
    Truncated,
}
