//! A sum that is kept in variables, as the place where rows go.
ghost use Rattle.std.specs.Prelude.{◌≡◌, ◌≤◌, ◌^◌, IfOk};
ghost use Rattle.term_code.specs.SumSinks.{BeginsSum, EndsSum, add_code, begin_code, sum_sink};
ghost use Rattle.term_code.specs.SinkLaws.{sum_laws};

use kernel_code::{KExpr, KStmt, ValueOp, one_statement};
use numbers::Semiring;
use result_targets::RowSink;
use std::alloc::{AllocError, Global};
use trees::Items;

/// A sum of rows that have no coordinates: whether there was a row is kept in variable `at`, and the sum of their values in the next one.
#[derive(Clone, Copy, Debug, PartialEq, Eq, Drop)]
pub struct SumSink {
    pub at: u64,
}

impl SumSink {
    /// Code that begins the sum, without rows. Refused only for want of memory.
    pub fn begin<S: Semiring>(&self, alloc: Global) -> Result<Items<KStmt>, AllocError>
        requires { self.now.at ≤ 2 ^ 62 }
        ensures { IfOk result (BeginsSum S.arithmetic self.now.at) }
    {
        let code = no_rows(alloc, self.at, S::zero())?;
        Ok(code)
    }

    /// Code that leaves the sum, behind its last row, as the first position of an access that is kept in the three variables from `at` on.
    /// Refused only for want of memory.
    pub fn end(&self, alloc: Global) -> Result<Items<KStmt>, AllocError>
        requires { self.now.at ≤ 2 ^ 62 }
        ensures { IfOk result (EndsSum self.now.at) }
    {
        let code = one_statement(alloc, KStmt::Set(self.at + 1 + 1, KExpr::Var(self.at + 1)))?;
        Ok(code)
    }
}

/// There is no row, and the sum is zero.
fn no_rows(alloc: Global, at: u64, zero: u64) -> Result<Items<KStmt>, AllocError>
    requires { at ≤ 2 ^ 62 }
    ensures { IfOk result (λ code. code ≡ begin_code at zero) }
{
    let mut code = one_statement(alloc, KStmt::Set(at, KExpr::Num(0)))?;
    code.push(KStmt::Set(at + 1, KExpr::Num(zero)))?;
    Ok(code)
}

/// Adds a value to the sum.
fn add_value(alloc: Global, at: u64, value: u64) -> Result<Items<KStmt>, AllocError>
    requires { at ≤ 2 ^ 63 }
    ensures { IfOk result (λ code. code ≡ add_code at value) }
{
    let total = KExpr::Var(at + 1);
    let sum = KStmt::Combine(at + 1, ValueOp::Plus, total, KExpr::Var(value));
    let mut code = one_statement(alloc, sum)?;
    code.push(KStmt::Set(at, KExpr::Num(1)))?;
    Ok(code)
}

impl RowSink for SumSink {
    ghost sink = { sum_sink };

    fn add_row(
        &self,
        alloc: Global,
        _keys: &[u64],
        value: u64,
        _free: u64,
    ) -> Result<Items<KStmt>, AllocError> {
        // No memory holds the code of so many operands.
        if self.at >= 1 << 61 {
            return Err(AllocError);
        }
        let code = add_value(alloc, self.at, value)?;
        Ok(code)
    }

    ghost laws = { sum_laws };
}
