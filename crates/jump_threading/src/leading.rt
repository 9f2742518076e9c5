// How many of the statements right before a choice are taken into its bodies: those that set what one body alone reads.
ghost use Rattle.std.specs.Prelude.{◌≡◌, ◌≤◌, ◌∷◌, [], IfOk, IsTrue, length};
ghost use Rattle.jump_threading.specs.Leads.{LeavesValue, last_of};

use crate::exprs::avoids;
use crate::live::Live;
use kernel_code::{KExpr, KStmt};
use std::alloc::{AllocError, Global};

/// What may be read before each of the bodies of a choice.
#[derive(Drop)]
pub(crate) struct Sides {
    pub first: Live,
    pub second: Live,
}

impl Sides {
    /// Before bodies that are empty yet, where this may be read behind them. Refused only for want of memory.
    pub(crate) fn behind(alloc: Global, live: &Live) -> Result<Sides, AllocError> {
        let first = live.copy(alloc)?;
        let second = live.copy(alloc)?;
        Ok(Sides { first, second })
    }

    /// Takes a statement before the body that alone reads what it sets, if it is such a statement.
    fn take(&mut self, alloc: Global, s: &KStmt) -> Result<bool, AllocError> {
        match s {
            KStmt::Set(x, _) | KStmt::Combine(x, _, _, _) => {
                match (self.first.has(*x), self.second.has(*x)) {
                    (true, false) => {
                        self.first.pass_statement(alloc, s)?;
                        Ok(true)
                    }
                    (false, true) => {
                        self.second.pass_statement(alloc, s)?;
                        Ok(true)
                    }
                    _ => Ok(false),
                }
            }
            _ => Ok(false),
        }
    }

    /// What may be read before the choice. Refused only for want of memory.
    pub(crate) fn joined(self, test: &KExpr) -> Result<Live, AllocError> {
        let Sides { first, second } = self;
        let mut live = first;
        live.join(&second)?;
        live.add_reads(test)?;
        Ok(live)
    }
}

/// Whether a statement does nothing but set a variable that an expression doesn't mention.
fn leaves_value(s: &KStmt, e: &KExpr) -> bool
    ensures { IsTrue result → LeavesValue (s.now ∷ []) e.now }
{
    match s {
        KStmt::Set(x, _) => avoids(e, *x),
        KStmt::Combine(x, _, _, _) => avoids(e, *x),
        _ => false,
    }
}

/// How many of the statements right before a choice are taken into its bodies. What may be read before the bodies becomes what may be read
/// before these. Refused only for want of memory.
pub(crate) fn take_lead(
    alloc: Global,
    before: &[KStmt],
    test: &KExpr,
    sides: &mut Sides,
) -> Result<usize, AllocError>
    ensures within { IfOk result (λ lead. lead ≤ length before.now) }
    ensures leaves { IfOk result (λ lead. LeavesValue (last_of lead before.now) test.now) }
{
    for lead in 0..before.len() {
        let s = &before[before.len() - 1 - lead];
        if !leaves_value(s, test) {
            return Ok(lead);
        }
        let taken = sides.take(alloc, s)?;
        if !taken {
            return Ok(lead);
        }
    }
    Ok(before.len())
}
