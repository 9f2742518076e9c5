//! Draining: the rows of the sorted list are taken from the top, and then the list is emptied.
ghost use Rattle.std.specs.Prelude.{◌≡◌, ◌+◌, ◌<◌, ◌≤◌, ◌^◌, [], ◌∷◌, IfOk};
ghost use Rattle.touched_workspaces.specs.Codes.{take_code, next_code, taken_code, wait_test, empty_code};
ghost use Rattle.touched_workspaces.specs.Drains.{TakesNext, TakesRow, TellsWaiting, EmptiesTouched};

use crate::sink::{TouchedSink, is_large};
use kernel_code::{Arr, KExpr, KStmt, Op, binary, one_statement, word_at};
use std::alloc::{AllocError, Global};
use trees::Items;

/// The sum of the coordinate in a variable is added to the row of the list whose place stands in another. Refused for want of memory alone.
fn join(alloc: Global, sink: TouchedSink, at: u64, x: u64) -> Result<KStmt, AllocError>
    ensures { IfOk result (λ s. s
        ≡ KStmt.AddTo (Arr.Sums sink.list) (KExpr.Var at) (KExpr.At (Arr.Sums sink.dense) (KExpr.Var x))) }
{
    let sum = word_at(alloc, Arr::Sums(sink.dense), KExpr::Var(x))?;
    Ok(KStmt::AddTo(Arr::Sums(sink.list), KExpr::Var(at), sum))
}

/// The coordinate of the row of the list whose place stands in a variable. Refused for want of memory alone.
fn find(alloc: Global, sink: TouchedSink, at: u64, x: u64) -> Result<KStmt, AllocError>
    ensures { IfOk result (λ s. s ≡ KStmt.Set x (KExpr.At (Arr.Key sink.list 0) (KExpr.Var at))) }
{
    let coordinate = word_at(alloc, Arr::Key(sink.list, 0), KExpr::Var(at))?;
    Ok(KStmt::Set(x, coordinate))
}

/// Mark and sum of the coordinate in a variable are cleared. Refused for want of memory alone.
fn clear(alloc: Global, sink: TouchedSink, x: u64) -> Result<Items<KStmt>, AllocError>
    ensures { IfOk result (λ code. code
        ≡ KStmt.Put (Arr.Key sink.dense 0) (KExpr.Var x) (KExpr.Num 0)
        ∷ KStmt.Put (Arr.Sums sink.dense) (KExpr.Var x) (KExpr.Num sink.zero) ∷ []) }
{
    let marks = Arr::Key(sink.dense, 0);
    let sums = Arr::Sums(sink.dense);
    let mut code = one_statement(alloc, KStmt::Put(marks, KExpr::Var(x), KExpr::Num(0)))?;
    code.push(KStmt::Put(sums, KExpr::Var(x), KExpr::Num(sink.zero)))?;
    Ok(code)
}

/// The row of the list whose place stands in a variable gets the sum of its coordinate, whose mark and sum are cleared. Refused for want of
/// memory alone.
fn take_marked(
    alloc: Global,
    sink: TouchedSink,
    at: u64,
    x: u64,
) -> Result<Items<KStmt>, AllocError>
    ensures { IfOk result (λ code. code ≡ take_code sink at x) }
{
    let found = find(alloc, sink, at, x)?;
    let mut code = one_statement(alloc, found)?;
    let joined = join(alloc, sink, at, x)?;
    code.push(joined)?;
    let cleared = clear(alloc, sink, x)?;
    code.append(cleared)?;
    Ok(code)
}

/// The code at the head of the drain. Refused for want of memory alone.
fn next_code(
    alloc: Global,
    sink: TouchedSink,
    at: u64,
    free: u64,
) -> Result<Items<KStmt>, AllocError>
    ensures { IfOk result (λ code. code ≡ next_code sink at free) }
{
    let test = is_large(alloc, sink.variable)?;
    let marked = take_marked(alloc, sink, at, free)?;
    let code = one_statement(alloc, KStmt::If(test, Items::new(alloc), marked))?;
    Ok(code)
}

/// The code behind the drain. Refused for want of memory alone.
fn empty_code(alloc: Global, sink: TouchedSink) -> Result<Items<KStmt>, AllocError>
    ensures { IfOk result (λ code. code ≡ empty_code sink) }
{
    let keys = Arr::Key(sink.list, 0);
    let mut code = one_statement(alloc, KStmt::Cut(keys, KExpr::Num(0)))?;
    code.push(KStmt::Cut(Arr::Sums(sink.list), KExpr::Num(0)))?;
    Ok(code)
}

/// Code at the head of the drain: the next row, whose place in the list stands in a variable, is taken. Its coordinate and its value then
/// stand in the list, whatever the range is. Variables from `free` on are its own. Refused for want of memory alone.
pub fn take_next(
    alloc: Global,
    sink: TouchedSink,
    at: u64,
    free: u64,
) -> Result<Items<KStmt>, AllocError>
    requires { at < free }
    ensures { IfOk result (TakesNext sink at free) }
{
    let code = next_code(alloc, sink, at, free)?;
    Ok(code)
}

/// The value of the row of the list whose place stands in a variable. Refused for want of memory alone.
fn read(alloc: Global, sink: TouchedSink, at: u64, value: u64) -> Result<KStmt, AllocError>
    ensures { IfOk result (λ s. s ≡ KStmt.Set value (KExpr.At (Arr.Sums sink.list) (KExpr.Var at))) }
{
    let word = word_at(alloc, Arr::Sums(sink.list), KExpr::Var(at))?;
    Ok(KStmt::Set(value, word))
}

/// The code of a row that is taken and read. Refused for want of memory alone.
fn taken_code(
    alloc: Global,
    sink: TouchedSink,
    at: u64,
    free: u64,
) -> Result<Items<KStmt>, AllocError>
    requires { free ≤ 2 ^ 62 }
    ensures { IfOk result (λ code. code ≡ taken_code sink at free) }
{
    let found = find(alloc, sink, at, free)?;
    let mut reads = one_statement(alloc, found)?;
    let value = read(alloc, sink, at, free + 1)?;
    reads.push(value)?;
    let mut code = next_code(alloc, sink, at, free)?;
    code.append(reads)?;
    Ok(code)
}

/// Code that takes the next row, whose place in the list stands in a variable, and leaves its coordinate in the variable `free` and its
/// value in the one after it. Variables from `free` on are its own. Refused for want of memory alone.
pub fn take_row(
    alloc: Global,
    sink: TouchedSink,
    at: u64,
    free: u64,
) -> Result<Items<KStmt>, AllocError>
    requires below { at < free }
    requires room { free ≤ 2 ^ 62 }
    ensures { IfOk result (TakesRow sink at free) }
{
    let code = taken_code(alloc, sink, at, free)?;
    Ok(code)
}

/// The test whether a row waits. Refused for want of memory alone.
fn wait_test(alloc: Global, sink: TouchedSink, at: u64) -> Result<KExpr, AllocError>
    ensures { IfOk result (λ test. test ≡ wait_test sink at) }
{
    let rows = KExpr::Len(Arr::Key(sink.list, 0));
    let test = binary(alloc, Op::Less, KExpr::Var(at), rows)?;
    Ok(test)
}

/// Whether a row waits: the place of the next one stands in a variable. Refused for want of memory alone.
pub fn rows_wait(alloc: Global, sink: TouchedSink, at: u64) -> Result<KExpr, AllocError>
    ensures { IfOk result (TellsWaiting sink at) }
{
    let test = wait_test(alloc, sink, at)?;
    Ok(test)
}

/// Code behind the drain: the list is emptied, and the workspace holds no rows. Refused for want of memory alone.
pub fn empty_touched(alloc: Global, sink: TouchedSink) -> Result<Items<KStmt>, AllocError>
    ensures { IfOk result (EmptiesTouched sink) }
{
    let code = empty_code(alloc, sink)?;
    Ok(code)
}
