//! The file that a word gives a tensor.
ghost use Rattle.std.specs.Prelude.{◌≡◌};
ghost use Rattle.bindings.specs.Files.{is_matrix};
ghost use Rattle.bindings.specs.Words.{is_mtx};

use crate::file_format::FileFormat;

/// The file of a tensor. Its format is what the path's ending says, decided as the word was read.
#[derive(Clone, Copy, Debug, Drop)]
pub struct TensorFile<'a> {
    pub path: &'a str,
    pub format: FileFormat,
    pub ghost told: { is_matrix format ≡ is_mtx path.now },
}

impl<'a> TensorFile<'a> {
    /// Whether it is a matrix.
    pub fn is_matrix(&self) -> bool
        ensures { result ≡ is_mtx self.now.path.now }
    {
        match self.format {
            FileFormat::Coordinates => false,
            FileFormat::MatrixMarket => true,
        }
    }
}
