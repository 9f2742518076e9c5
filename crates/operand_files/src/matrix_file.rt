// A Matrix Market file that is being read.
ghost use Rattle.std.specs.Prelude.{◌≡◌, [], ◌∷◌, IfOk};
ghost use Rattle.mtx_io.specs.Progress.{IsMatrixOrder};

use mtx_io::MtxReader;
use numbers::Semiring;
use outside::Eater;
use std::alloc::{AllocError, Global};

/// A reader of a Matrix Market file. Whoever feeds it a file knows its order afterwards.
#[derive(Drop)]
pub(crate) struct MatrixFile<S: Semiring> {
    pub reader: MtxReader<S>,
}

/// A reader that was fed nothing yet, of a tensor of order 1 or 2.
pub(crate) fn matrix_file<S: Semiring>(
    alloc: Global,
    order: usize,
) -> Result<MatrixFile<S>, AllocError>
    requires { IsMatrixOrder order }
    ensures order { IfOk result (λ file. file.reader.order ≡ order) }
    ensures text { IfOk result (λ file. file.reader.text ≡ []) }
{
    Ok(MatrixFile {
        reader: MtxReader::new(alloc, order)?,
    })
}

/// It is told as it is given a file: the order, and then the bytes.
impl<S: Semiring> Eater for MatrixFile<S> {
    ghost eaten = { λ file. file.reader.order ∷ file.reader.text };

    fn feed(&mut self, piece: &[u8]) -> Result<(), AllocError> {
        self.reader.feed(piece)
    }
}
