use crate::banner::Symmetry;

/// What the first lines of a file say of the matrix, for a tensor of order 1 or 2.
#[derive(Clone, Copy, Debug, PartialEq, Eq)]
pub(crate) struct Header {
    /// The order of the tensor that the matrix is read as.
    pub(crate) order: usize,
    /// Which entries have a mirror image.
    pub(crate) symmetry: Symmetry,
    /// The number of rows.
    pub(crate) rows: u64,
    /// The number of columns.
    pub(crate) columns: u64,
}
