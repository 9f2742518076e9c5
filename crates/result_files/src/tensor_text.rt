//! The text of the tensor that entries stand for.
ghost use Rattle.result_files.specs.EntriesText.{result_text, MayBeWritten};

use crate::printing::Text;
use mtx_io::put_mtx;
use numbers::Semiring;
use outside::{Refusal, Sink};
use std::marker::PhantomData;
use tensor_map::{Entries, Shape};
use tns_io::put_tns;

/// The entries' tensor over this shape, as a Matrix Market file or else as a `.tns` file, without what `S` says is zero.
#[derive(Drop)]
pub(crate) struct TensorText<'a, S: Semiring> {
    pub(crate) is_matrix: bool,
    pub(crate) shape: &'a Shape,
    pub(crate) entries: &'a Entries,
    pub(crate) semiring: PhantomData<S>,
}

impl<'a, S: Semiring> Text for TensorText<'a, S> {
    ghost text = { λ t. result_text t.is_matrix S.arithmetic S.is_signed t.shape.now t.entries.now.list };

    ghost may_be_put = { λ t. MayBeWritten t.is_matrix t.shape.now t.entries.now };

    fn put<K: Sink>(&self, sink: &mut K) -> Result<(), Refusal> {
        if self.is_matrix {
            put_mtx::<S, K>(sink, self.shape, self.entries)
        } else {
            put_tns::<S, K>(sink, self.entries)
        }
    }
}
