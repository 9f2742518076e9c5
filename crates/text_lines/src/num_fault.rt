/// Why a token isn't such a number as is wanted.
#[derive(Clone, Copy, Debug, PartialEq, Eq)]
pub enum NumFault {
    /// It is no number.
    NotNumber,
    /// It is a decimal number, but not written as a whole one.
    NotWhole,
    /// It is a number out of range.
    NumRange,
}
