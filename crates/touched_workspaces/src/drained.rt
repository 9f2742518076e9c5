//! A workspace of one key as one that is drained.
ghost use Rattle.touched_workspaces.specs.Drained.{touched_draining};
ghost use Rattle.touched_workspaces.specs.DrainedLaws.{touched_draining_laws};

use crate::drains::{empty_touched, rows_wait, take_row};
use crate::sink::TouchedSink;
use drained_workspaces::DrainedWorkspace;
use kernel_code::{KExpr, KStmt, one_statement};
use std::alloc::{AllocError, Global};
use trees::Items;

impl DrainedWorkspace for TouchedSink {
    ghost draining = { touched_draining };

    fn keys(&self) -> u64 {
        1
    }

    fn sort(&self, alloc: Global) -> Result<Items<KStmt>, AllocError> {
        let code = one_statement(alloc, KStmt::SortSum(self.list))?;
        Ok(code)
    }

    fn rows_wait(&self, alloc: Global, at: u64) -> Result<KExpr, AllocError> {
        let test = rows_wait(alloc, *self, at)?;
        Ok(test)
    }

    fn take_row(&self, alloc: Global, at: u64, free: u64) -> Result<Items<KStmt>, AllocError> {
        let code = take_row(alloc, *self, at, free)?;
        Ok(code)
    }

    fn empty(&self, alloc: Global) -> Result<Items<KStmt>, AllocError> {
        let code = empty_touched(alloc, *self)?;
        Ok(code)
    }

    ghost draining_laws = { touched_draining_laws };
}
