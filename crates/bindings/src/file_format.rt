//! The formats that files have.

/// The format of a tensor's file.
#[derive(Clone, Copy, Debug, PartialEq, Eq, Drop)]
pub enum FileFormat {
    /// A line for each entry, with its coordinates and its value: a path that ends in `.tns`.
    Coordinates,
    /// A matrix as Matrix Market has it, by its entries or as an array: a path that ends in `.mtx`.
    MatrixMarket,
}
