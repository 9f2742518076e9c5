// What an operand gives for the ranges of variables.
ghost use Rattle.std.specs.Prelude.{◌≡◌, ◌<◌, IfOk};
ghost use Rattle.expr_terms.specs.Ranges.{reach};
ghost use Rattle.mtx_io.specs.Progress.{IsMatrixOrder};
ghost use Rattle.operand_files.specs.Decoded.{reached, sizes};
ghost use Rattle.tns_io.specs.Text.{AreInRange};

use expr_terms::Bound;
use std::alloc::{AllocError, Global};
use tensor_map::Entries;

/// The greatest coordinate of a mode, counted from 1, and 0 where there is no entry.
fn reach_of(entries: &Entries, mode: usize) -> u64
    requires mode { mode < entries.now.order }
    requires small { AreInRange entries.now.list }
    ensures { result ≡ reach entries.now.list mode }
{
    match entries.greatest(mode) {
        Some(coordinate) => coordinate + 1,
        None => 0,
    }
}

/// What each mode of a `.tns` file gives: its greatest coordinate, counted from 1.
pub(crate) fn reached_by(alloc: Global, entries: &Entries) -> Result<Vec<Bound>, AllocError>
    requires { AreInRange entries.now.list }
    ensures { IfOk result (λ bounds. bounds.items ≡ reached entries.now.order entries.now.list) }
{
    let mut bounds = Vec::new(alloc);
    for mode in 0..entries.order() {
        bounds.push(Bound::AtLeast(reach_of(entries, mode)))?;
    }
    Ok(bounds)
}

/// What each mode of a matrix gives: the number of rows, and of columns where the order is 2.
pub(crate) fn sizes_of(
    alloc: Global,
    order: usize,
    rows: u64,
    columns: u64,
) -> Result<Vec<Bound>, AllocError>
    requires { IsMatrixOrder order }
    ensures { IfOk result (λ bounds. bounds.items ≡ sizes order rows columns) }
{
    let mut bounds = Vec::new(alloc);
    bounds.push(Bound::Exact(rows))?;
    if order == 2 {
        bounds.push(Bound::Exact(columns))?;
    }
    Ok(bounds)
}
