//! A workspace of pairs as one that is drained.
ghost use Rattle.std.specs.Prelude.{◌≡◌, ◌+◌, ◌≤◌, ◌^◌, IfOk};
ghost use Rattle.pair_workspaces.specs.Codes.{read_code, take_code, wait_test, cut_code, empty_code};
ghost use Rattle.pair_workspaces.specs.Drained.{pair_draining};
ghost use Rattle.pair_workspaces.specs.DrainedLaws.{pair_draining_laws};

use crate::sink::PairSink;
use drained_workspaces::DrainedWorkspace;
use kernel_code::{Arr, KExpr, KStmt, Op, binary, one_statement, word_at};
use std::alloc::{AllocError, Global};
use trees::Items;

/// Leaves the first coordinates, so many, of the row whose place stands in a variable. Refused for want of memory alone.
fn read_code(
    alloc: Global,
    workspace: u64,
    count: u64,
    at: u64,
    free: u64,
) -> Result<Items<KStmt>, AllocError>
    requires { free + count ≤ 2 ^ 62 }
    ensures { IfOk result (λ code. code ≡ read_code workspace at free count) }
{
    let mut code = Items::new(alloc);
    for n in 0..count {
        let word = word_at(alloc, Arr::Key(workspace, n), KExpr::Var(at))?;
        code.push(KStmt::Set(free + n, word))?;
    }
    Ok(code)
}

/// Leaves all its coordinates, and its value behind them. Refused for want of memory alone.
fn take_code(alloc: Global, sink: PairSink, at: u64, free: u64) -> Result<Items<KStmt>, AllocError>
    requires { free + sink.keys ≤ 2 ^ 62 }
    ensures { IfOk result (λ code. code ≡ take_code sink.number sink.keys at free) }
{
    let word = word_at(alloc, Arr::Sums(sink.number), KExpr::Var(at))?;
    let mut code = read_code(alloc, sink.number, sink.keys, at, free)?;
    code.push(KStmt::Set(free + sink.keys, word))?;
    Ok(code)
}

/// Whether a row waits. Refused for want of memory alone.
fn wait_test(alloc: Global, workspace: u64, at: u64) -> Result<KExpr, AllocError>
    ensures { IfOk result (λ test. test ≡ wait_test workspace at) }
{
    let rows = KExpr::Len(Arr::Sums(workspace));
    let test = binary(alloc, Op::Less, KExpr::Var(at), rows)?;
    Ok(test)
}

/// Empties the first columns of coordinates, so many. Refused for want of memory alone.
fn cut_code(alloc: Global, workspace: u64, count: u64) -> Result<Items<KStmt>, AllocError>
    ensures { IfOk result (λ code. code ≡ cut_code workspace count) }
{
    let mut code = Items::new(alloc);
    for n in 0..count {
        code.push(KStmt::Cut(Arr::Key(workspace, n), KExpr::Num(0)))?;
    }
    Ok(code)
}

/// Empties all columns. Refused for want of memory alone.
fn empty_code(alloc: Global, sink: PairSink) -> Result<Items<KStmt>, AllocError>
    ensures { IfOk result (λ code. code ≡ empty_code sink.number sink.keys) }
{
    let mut code = cut_code(alloc, sink.number, sink.keys)?;
    code.push(KStmt::Cut(Arr::Sums(sink.number), KExpr::Num(0)))?;
    Ok(code)
}

impl DrainedWorkspace for PairSink {
    ghost draining = { pair_draining };

    fn keys(&self) -> u64 {
        self.keys
    }

    fn sort(&self, alloc: Global) -> Result<Items<KStmt>, AllocError> {
        let code = one_statement(alloc, KStmt::SortSum(self.number))?;
        Ok(code)
    }

    fn rows_wait(&self, alloc: Global, at: u64) -> Result<KExpr, AllocError> {
        let test = wait_test(alloc, self.number, at)?;
        Ok(test)
    }

    fn take_row(&self, alloc: Global, at: u64, free: u64) -> Result<Items<KStmt>, AllocError> {
        let code = take_code(alloc, *self, at, free)?;
        Ok(code)
    }

    fn empty(&self, alloc: Global) -> Result<Items<KStmt>, AllocError> {
        let code = empty_code(alloc, *self)?;
        Ok(code)
    }

    ghost draining_laws = { pair_draining_laws };
}
