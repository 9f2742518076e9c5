//! A sink beside scratch lists.
ghost use Rattle.kernel_emit.specs.Beside.{seen_beside, seen_laws};

use kernel_code::KStmt;
use result_targets::RowSink;
use std::alloc::{AllocError, Global};
use trees::Items;

/// A sink beside scratch lists, from the one numbered `first` to the one before `past`, which code may fill while the sink holds its rows.
#[derive(Drop)]
pub(crate) struct BesideLists<'a, K> {
    pub sink: &'a K,
    pub first: u64,
    pub past: u64,
}

impl<'a, K: RowSink> RowSink for BesideLists<'a, K> {
    ghost sink = { seen_beside K.sink };

    fn add_row(
        &self,
        alloc: Global,
        keys: &[u64],
        value: u64,
        free: u64,
    ) -> Result<Items<KStmt>, AllocError> {
        let code = self.sink.add_row(alloc, keys, value, free)?;
        Ok(code)
    }

    ghost laws = { seen_laws K.sink K.laws };
}
