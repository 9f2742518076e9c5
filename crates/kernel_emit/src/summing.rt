//! A sum without its loops: whether it has to be made, the code around them, and where it is kept behind them.
ghost use Rattle.std.specs.Prelude.{◌≡◌, ℕ, ◌≤◌, ◌<◌, ◌+◌, ◌++◌, ◌^◌, [], ◌∷◌, length, IfOk};
ghost use Rattle.loop_code.specs.Places.{EachAccess};
ghost use Rattle.operand_arrays.specs.Terms.{EachTerm};
ghost use Rattle.term_code.specs.Places.{AreBelow};
ghost use Rattle.kernel_emit.specs.Summed.{BeginsSumming};

use kernel_code::{KExpr, KStmt};
use loop_code::LoopCode;
use loop_flags::sum_flag;
use numbers::Semiring;
use std::alloc::{AllocError, Global};
use term_code::{Places, SumSink};
use trees::Items;

/// A sum without its loops.
#[derive(Drop)]
pub struct Summing {
    /// Whether the sum has to be made.
    pub flag: KExpr,
    /// The variables in which it is made.
    pub sink: SumSink,
    /// The code that begins the sum.
    pub begin: Items<KStmt>,
    /// The code behind its loops, which leaves it as what an access is kept as.
    pub end: Items<KStmt>,
    /// Where accesses and variables are kept in the loops that read it.
    pub places: Places,
    /// The first variable that is free behind those of the sum.
    pub free: u64,
}

/// A sum without its loops, in three variables from `free` on. Refused only for want of memory.
pub fn begin_sum<S: Semiring>(
    alloc: Global,
    places: &Places,
    sum: usize,
    inside: &LoopCode,
    body: &LoopCode,
    free: u64,
) -> Result<Summing, AllocError>
    requires sum { sum < length places.now.accesses }
    requires inside { EachTerm (λ t. EachAccess (λ k. k < length places.now.accesses) t.expr) inside.now }
    requires body { EachTerm (λ t. EachAccess (λ k. k < length places.now.accesses) t.expr) body.now }
    ensures { IfOk result (BeginsSumming S.arithmetic places.now sum inside.now body.now free) }
{
    // No memory holds the code of so many operands.
    if free >= 1 << 61 {
        return Err(AllocError);
    }
    let flag = sum_flag(alloc, places, sum, inside, body)?;
    let sink = SumSink { at: free };
    let begin = sink.begin::<S>(alloc)?;
    let end = sink.end(alloc)?;
    let mut behind = places.copy(alloc)?;
    behind.set_cursor(sum, free);
    Ok(Summing {
        flag,
        sink,
        begin,
        end,
        places: behind,
        free: free + 3,
    })
}

/// The code of a sum: its loops are run where the flag isn't 0. Refused only for want of memory.
pub fn end_sum(
    alloc: Global,
    begin: Items<KStmt>,
    flag: KExpr,
    turns: Items<KStmt>,
    end: Items<KStmt>,
) -> Result<Items<KStmt>, AllocError>
    ensures { IfOk result (λ code. code ≡ (begin ++ KStmt.If flag turns [] ∷ []) ++ end) }
{
    let mut code = begin;
    code.push(KStmt::If(flag, turns, Items::new(alloc)))?;
    code.append(end)?;
    Ok(code)
}
