//! Before the first row: marks and sums are made where the range isn't large.
ghost use Rattle.std.specs.Prelude.{◌≡◌, [], ◌∷◌, IfOk};
ghost use Rattle.touched_workspaces.specs.Codes.{zeros_code, begin_code};
ghost use Rattle.touched_workspaces.specs.Starts.{BeginsTouched};

use crate::sink::{TouchedSink, is_large};
use kernel_code::{Arr, KExpr, KStmt, one_statement, word_at};
use std::alloc::{AllocError, Global};
use trees::Items;

/// As many of a word as the range of a variable tells are appended to an array. Refused for want of memory alone.
fn extend(alloc: Global, array: Arr, variable: u64, word: u64) -> Result<KStmt, AllocError>
    ensures { IfOk result (λ s. s ≡ KStmt.Extend array (KExpr.At Arr.Range (KExpr.Num variable)) (KExpr.Num word)) }
{
    let range = word_at(alloc, Arr::Range, KExpr::Num(variable))?;
    Ok(KStmt::Extend(array, range, KExpr::Num(word)))
}

/// A mark and a sum for each coordinate. Refused for want of memory alone.
fn zeros(alloc: Global, sink: TouchedSink) -> Result<Items<KStmt>, AllocError>
    ensures { IfOk result (λ code. code ≡ zeros_code sink) }
{
    let marks = extend(alloc, Arr::Key(sink.dense, 0), sink.variable, 0)?;
    let mut code = one_statement(alloc, marks)?;
    let sums = extend(alloc, Arr::Sums(sink.dense), sink.variable, sink.zero)?;
    code.push(sums)?;
    Ok(code)
}

/// The code before the first row. Refused for want of memory alone.
fn begin_code(alloc: Global, sink: TouchedSink) -> Result<Items<KStmt>, AllocError>
    ensures { IfOk result (λ code. code ≡ begin_code sink) }
{
    let test = is_large(alloc, sink.variable)?;
    let zeros = zeros(alloc, sink)?;
    let code = one_statement(alloc, KStmt::If(test, Items::new(alloc), zeros))?;
    Ok(code)
}

/// Code before the first row, over two workspaces without rows: where the range isn't large, each coordinate gets a mark and a sum, which
/// are zero. Refused for want of memory alone.
pub fn begin_touched(alloc: Global, sink: TouchedSink) -> Result<Items<KStmt>, AllocError>
    ensures { IfOk result (BeginsTouched sink) }
{
    let code = begin_code(alloc, sink)?;
    Ok(code)
}
