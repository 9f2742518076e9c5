//! A workspace of pairs as the place where rows go.
ghost use Rattle.pair_workspaces.specs.SinkLaws.{pair_laws};
ghost use Rattle.pair_workspaces.specs.Sinks.{pair_sink};

use kernel_code::KStmt;
use result_targets::RowSink;
use std::alloc::{AllocError, Global};
use term_code::WorkspaceSink;
use trees::Items;

/// A workspace by its number, and how many coordinates its rows have. A row's coordinates are pushed on its keys in their order, and its
/// value on its sums.
#[derive(Clone, Copy, Debug, PartialEq, Eq, Drop)]
pub struct PairSink {
    pub number: u64,
    pub keys: u64,
}

impl RowSink for PairSink {
    ghost sink = { pair_sink };

    fn add_row(
        &self,
        alloc: Global,
        keys: &[u64],
        value: u64,
        free: u64,
    ) -> Result<Items<KStmt>, AllocError> {
        let pairs = WorkspaceSink {
            number: self.number,
            keys: self.keys,
        };
        let code = pairs.add_row(alloc, keys, value, free)?;
        Ok(code)
    }

    ghost laws = { pair_laws };
}
