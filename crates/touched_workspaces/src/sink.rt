//! A workspace of one key as the place where rows go.
ghost use Rattle.std.specs.Prelude.{◌≡◌, [], ◌∷◌, IfOk};
ghost use Rattle.touched_workspaces.specs.Codes.{is_large, touch_code, mark_code, row_code};
ghost use Rattle.touched_workspaces.specs.Sinks.{touched_sink};
ghost use Rattle.touched_workspaces.specs.SinkLaws.{touched_laws};

use crate::sizes::greatest_range_of_marks;
use kernel_code::{Arr, KExpr, KStmt, Op, binary, one_statement, word_at};
use result_targets::RowSink;
use std::alloc::{AllocError, Global};
use trees::Items;

/// A workspace whose only key is a variable. It is made of two: `dense` keeps a mark and a sum for each coordinate where the variable's
/// range isn't large, and `list` the coordinates that were touched; above that range `list` keeps the rows themselves. `zero` is the word
/// that sums are before a row is added.
#[derive(Clone, Copy, Debug, PartialEq, Eq, Drop)]
pub struct TouchedSink {
    pub dense: u64,
    pub list: u64,
    pub variable: u64,
    pub zero: u64,
}

/// Whether the range of a variable is too large for marks. Refused for want of memory alone.
pub fn is_large(alloc: Global, variable: u64) -> Result<KExpr, AllocError>
    ensures { IfOk result (λ test. test ≡ is_large variable) }
{
    let range = word_at(alloc, Arr::Range, KExpr::Num(variable))?;
    let greatest = KExpr::Num(greatest_range_of_marks());
    let test = binary(alloc, Op::Less, greatest, range)?;
    Ok(test)
}

/// Lists a row whose coordinate stands in a variable. Refused for want of memory alone.
fn list_row(alloc: Global, list: u64, x: u64, value: KExpr) -> Result<Items<KStmt>, AllocError>
    ensures { IfOk result (λ code. code
        ≡ KStmt.Push (Arr.Key list 0) (KExpr.Var x) ∷ KStmt.Push (Arr.Sums list) value ∷ []) }
{
    let mut code = one_statement(alloc, KStmt::Push(Arr::Key(list, 0), KExpr::Var(x)))?;
    code.push(KStmt::Push(Arr::Sums(list), value))?;
    Ok(code)
}

/// The first touch of a coordinate. Refused for want of memory alone.
fn touch(alloc: Global, sink: TouchedSink, x: u64) -> Result<Items<KStmt>, AllocError>
    ensures { IfOk result (λ code. code ≡ touch_code sink x) }
{
    let listed = list_row(alloc, sink.list, x, KExpr::Num(sink.zero))?;
    let marks = Arr::Key(sink.dense, 0);
    let mut code = one_statement(alloc, KStmt::Put(marks, KExpr::Var(x), KExpr::Num(1)))?;
    code.append(listed)?;
    Ok(code)
}

/// A row's value is added to the sum of its coordinate, which is touched if it wasn't. Refused for want of memory alone.
fn mark(alloc: Global, sink: TouchedSink, x: u64, value: u64) -> Result<Items<KStmt>, AllocError>
    ensures { IfOk result (λ code. code ≡ mark_code sink x value) }
{
    let marked = word_at(alloc, Arr::Key(sink.dense, 0), KExpr::Var(x))?;
    let touch = touch(alloc, sink, x)?;
    let mut code = one_statement(alloc, KStmt::If(marked, Items::new(alloc), touch))?;
    let sums = Arr::Sums(sink.dense);
    code.push(KStmt::AddTo(sums, KExpr::Var(x), KExpr::Var(value)))?;
    Ok(code)
}

/// The code of a row whose coordinate and value stand in variables. Refused for want of memory alone.
fn row_code(
    alloc: Global,
    sink: TouchedSink,
    x: u64,
    value: u64,
) -> Result<Items<KStmt>, AllocError>
    ensures { IfOk result (λ code. code ≡ row_code sink x value) }
{
    let test = is_large(alloc, sink.variable)?;
    let listed = list_row(alloc, sink.list, x, KExpr::Var(value))?;
    let marked = mark(alloc, sink, x, value)?;
    let code = one_statement(alloc, KStmt::If(test, listed, marked))?;
    Ok(code)
}

impl RowSink for TouchedSink {
    ghost sink = { touched_sink };

    fn add_row(
        &self,
        alloc: Global,
        keys: &[u64],
        value: u64,
        _free: u64,
    ) -> Result<Items<KStmt>, AllocError> {
        let code = row_code(alloc, *self, keys[0], value)?;
        Ok(code)
    }

    ghost laws = { touched_laws };
}
