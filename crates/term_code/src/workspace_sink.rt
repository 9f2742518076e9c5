//! A workspace as the place where rows go.
ghost use Rattle.std.specs.Prelude.{◌≡◌, ◌+◌, ◌≤◌, ◌^◌, length, IfOk};
ghost use Rattle.term_code.specs.WorkspaceSinks.{push_code, workspace_sink};
ghost use Rattle.term_code.specs.SinkLaws.{workspace_laws};

use kernel_code::{Arr, KExpr, KStmt, one_statement};
use result_targets::RowSink;
use std::alloc::{AllocError, Global};
use trees::Items;

/// A workspace by its number, and how many keys its rows have. A row's coordinates are pushed on its keys in their order, and
/// its value on its sums.
#[derive(Clone, Copy, Debug, PartialEq, Eq, Drop)]
pub struct WorkspaceSink {
    pub number: u64,
    pub keys: u64,
}

/// Pushes the coordinates of a row on the keys from the one numbered `first` on, and then its value.
fn push_from(
    alloc: Global,
    workspace: u64,
    first: u64,
    keys: &[u64],
    value: u64,
) -> Result<Items<KStmt>, AllocError>
    requires { first + length keys.now ≤ 2 ^ 63 }
    ensures { IfOk result (λ code. code ≡ push_code workspace first keys.now value) }
{
    let Some((key, others)) = keys.split_first() else {
        return one_statement(alloc, KStmt::Push(Arr::Sums(workspace), KExpr::Var(value)));
    };
    let rest = push_from(alloc, workspace, first + 1, others, value)?;
    let mut code = one_statement(
        alloc,
        KStmt::Push(Arr::Key(workspace, first), KExpr::Var(*key)),
    )?;
    code.append(rest)?;
    Ok(code)
}

impl RowSink for WorkspaceSink {
    ghost sink = { workspace_sink };

    fn add_row(
        &self,
        alloc: Global,
        keys: &[u64],
        value: u64,
        _free: u64,
    ) -> Result<Items<KStmt>, AllocError> {
        let code = push_from(alloc, self.number, 0, keys, value)?;
        Ok(code)
    }

    ghost laws = { workspace_laws };
}
