// What is left of choices and loops, once their bodies are.
ghost use Rattle.std.specs.Prelude.{◌≡◌, ◌∷◌, [], IfOk};
ghost use Rattle.dead_code.specs.Gathers.{IsLeftOfChoice};
ghost use Rattle.dead_code.specs.Live.{Covers};

use crate::live::join;
use crate::operands::gather_one;
use crate::statements::Left;
use kernel_code::{KExpr, KStmt};
use std::alloc::{AllocError, Global};
use trees::Items;

/// What is left of a choice with these bodies, before the first of which these variables are live, and before the second those that live
/// tells: nothing where both are empty.
pub(crate) fn joined(
    alloc: Global,
    before: &[KStmt],
    test: &KExpr,
    one: Items<KStmt>,
    other: Items<KStmt>,
    there: &[bool],
    live: &mut Items<bool>,
) -> Result<Left, AllocError>
    ensures { IfOk result (λ left. IsLeftOfChoice live.new there.now live.old before.now test.now one other left.statement left.taken) }
{
    join(live, there);
    if one.is_empty() && other.is_empty() {
        return Ok(Left {
            statement: None,
            taken: 0,
        });
    }
    let operands = gather_one(alloc, before, test, live)?;
    let taken = operands.taken;
    Ok(Left {
        statement: Some(KStmt::If(operands.into_first(), one, other)),
        taken,
    })
}
