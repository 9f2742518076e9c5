//! Where the rows of loops go that may stand inside a sum.
ghost use Rattle.kernel_emit.specs.Within.{within_laws, within_sink};

use kernel_code::KStmt;
use result_targets::RowSink;
use std::alloc::{AllocError, Global};
use term_code::SumSink;
use trees::Items;

/// The sink of whole loop trees, or the sum that is made of rows.
#[derive(Drop)]
pub(crate) enum Within<'a, K> {
    Outer(&'a K),
    Sum(SumSink),
}

impl<'a, K: RowSink> RowSink for Within<'a, K> {
    ghost sink = { within_sink K.sink };

    fn add_row(
        &self,
        alloc: Global,
        keys: &[u64],
        value: u64,
        free: u64,
    ) -> Result<Items<KStmt>, AllocError> {
        match self {
            Within::Outer(sink) => {
                let code = sink.add_row(alloc, keys, value, free)?;
                Ok(code)
            }
            Within::Sum(sum) => {
                let code = sum.add_row(alloc, keys, value, free)?;
                Ok(code)
            }
        }
    }

    ghost laws = { within_laws K.sink K.laws };
}
