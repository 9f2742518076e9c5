//! A sink of rows that come in groups.
ghost use Rattle.grouped_loops.specs.Grouped.{grouped_sink};
ghost use Rattle.grouped_loops.specs.GroupedLaws.{grouped_laws};

use kernel_code::KStmt;
use result_targets::RowSink;
use std::alloc::{AllocError, Global};
use trees::Items;

/// A sink of rows that come in groups, which have their first coordinates in common: a group's rows are summed in a workspace by their
/// other coordinates, and the sums go on to an outer sink.
#[derive(Drop)]
pub struct Grouped<'a, W, K> {
    /// Where a group's rows are summed.
    pub workspace: &'a W,
    /// Where the sums go.
    pub outer: &'a K,
    /// How many coordinates the rows of a group have in common.
    pub first: usize,
    /// For each key of the workspace the mode of the result that it is a coordinate of.
    pub modes: &'a [usize],
}

impl<'a, W: RowSink, K: RowSink> RowSink for Grouped<'a, W, K> {
    ghost sink = { grouped_sink W.sink K.sink };

    /// Rows come by groups alone, and never one by one, so that nothing is to be done.
    fn add_row(
        &self,
        alloc: Global,
        _keys: &[u64],
        _value: u64,
        _free: u64,
    ) -> Result<Items<KStmt>, AllocError> {
        Ok(Items::new(alloc))
    }

    ghost laws = { grouped_laws W.sink K.sink W.laws K.laws };
}
