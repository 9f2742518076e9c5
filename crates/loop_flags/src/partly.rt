//! Places of accesses of which the first ones are pruned.
ghost use Rattle.std.specs.Prelude.{◌≡◌, ◌+◌, ◌<◌, ◌≤◌, ◌^◌, ◌++◌, true, length, IfOk, OnOk};
ghost use Rattle.loop_code.specs.Places.{EachAccess};
ghost use Rattle.operand_arrays.specs.Terms.{EachTerm};
ghost use Rattle.loop_flags.specs.PrunedSteps.{IsPresentFlag, PrunesFirst, copy_code, with_none, with_copy};

use crate::flags::{both, is_number};
use crate::liveness::live_flag;
use crate::staying::{starts_no_sum, stays_below};
use kernel_code::{KExpr, KStmt, one_statement};
use loop_code::LoopCode;
use std::alloc::{AllocError, Global};
use term_code::{AccessPlace, Places};
use trees::Items;

/// New places of the accesses, the code that leaves them, and the first variable that is free behind them. The variable `zero`
/// is for accesses that stand in no term, if there are such among them.
#[derive(Debug, Drop)]
pub(crate) struct Partly {
    pub(crate) places: Places,
    pub(crate) code: Items<KStmt>,
    pub(crate) zero: u64,
    pub(crate) free: u64,
    pub(crate) left_out: bool,
}

/// The flag of a live access, `flag`, where it is present besides: the access of a sum that starts below may be live and not be present
/// before.
fn present_flag(
    alloc: Global,
    loops: &LoopCode,
    access: usize,
    place: AccessPlace,
    flag: KExpr,
) -> Result<KExpr, AllocError>
    ensures { IfOk result (IsPresentFlag loops.now access place flag) }
{
    if starts_no_sum(loops, access) {
        return Ok(flag);
    }
    let present = both(alloc, flag, KExpr::Var(place.cursor))?;
    Ok(present)
}

/// Code that leaves, in three variables from `free` on, a copy of those from `cursor` on where the flag is 1, and else 0.
fn copy_where(
    alloc: Global,
    flag: KExpr,
    cursor: u64,
    free: u64,
) -> Result<Items<KStmt>, AllocError>
    requires cursor { cursor + 3 ≤ free }
    requires room { free ≤ 2 ^ 62 }
    ensures { IfOk result (λ code. code ≡ copy_code flag cursor free) }
{
    let mut there = one_statement(alloc, KStmt::Set(free, KExpr::Num(1)))?;
    there.push(KStmt::Set(free + 1, KExpr::Var(cursor + 1)))?;
    there.push(KStmt::Set(free + 1 + 1, KExpr::Var(cursor + 1 + 1)))?;
    let none = one_statement(alloc, KStmt::Set(free, KExpr::Num(0)))?;
    let code = one_statement(alloc, KStmt::If(flag, there, none))?;
    Ok(code)
}

impl Partly {
    /// The access stands in no term.
    fn leave_out(&mut self, access: usize)
        requires { access < length self.old.places.accesses }
        ensures { self.new ≡ with_none self.old access }
    {
        self.places.set_cursor(access, self.zero);
        self.left_out = true;
    }

    /// The access stands, where the flag is 1, at a copy of where it stood.
    fn copy_one(
        &mut self,
        alloc: Global,
        access: usize,
        flag: KExpr,
        cursor: u64,
    ) -> Result<(), AllocError>
        requires access { access < length self.old.places.accesses }
        requires cursor { cursor + 3 ≤ self.old.free }
        ensures { OnOk result (self.new ≡ with_copy self.old access flag cursor) }
    {
        // No memory holds the code of so many operands.
        if self.free >= 1 << 61 {
            return Err(AllocError);
        }
        let copy = copy_where(alloc, flag, cursor, self.free)?;
        self.code.append(copy)?;
        self.places.set_cursor(access, self.free);
        self.free += 3;
        Ok(())
    }

    /// Prunes one access more: it stays where it is where that can be seen of the loops, else it is copied where it stands in a
    /// part that remains, or is nowhere.
    pub(crate) fn prune(
        &mut self,
        alloc: Global,
        places: &Places,
        loops: &LoopCode,
        access: usize,
    ) -> Result<(), AllocError>
        requires placed { EachTerm (λ t. EachAccess (λ k. k < length places.now.accesses) t.expr) loops.now }
        requires access { access < length places.now.accesses }
        requires before { PrunesFirst places.now loops.now access self.old }
        ensures pruned { OnOk result (PrunesFirst places.now loops.now (access + 1) self.new) }
        ensures zero { OnOk result (self.new.zero ≡ self.old.zero) }
    {
        if stays_below(loops, access) {
            return Ok(());
        }
        let flag = live_flag(alloc, places, loops, access)?;
        if is_number(&flag, 0) {
            self.leave_out(access);
            return Ok(());
        }
        let place = places.accesses.as_slice()[access];
        let present = present_flag(alloc, loops, access, place, flag)?;
        self.copy_one(alloc, access, present, place.cursor)?;
        Ok(())
    }
}
