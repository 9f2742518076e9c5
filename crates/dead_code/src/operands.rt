// The operands of a statement, where the values of variables that are read there alone are written in their place.
ghost use Rattle.std.specs.Prelude.{◌≡◌, ◌≤◌, IfOk, IsTrue, false, length};
ghost use Rattle.dead_code.specs.Gathers.{AreGathered, Gathers, PutIn, last_of};
ghost use Rattle.dead_code.specs.Live.{is_live};

use crate::live::{add_reads, is_live};
use kernel_code::{Arr, KExpr, KStmt, copy_expr};
use std::alloc::{AllocError, Global};
use trees::{Boxed, Items};

/// The greatest number of parts that operands are made to have.
const MOST_PARTS: usize = 40;

/// One or two operands, and how many of the statements before theirs are written in them. Of one operand the second is a number.
#[derive(Drop)]
pub(crate) struct Operands {
    pub first: KExpr,
    pub second: KExpr,
    pub taken: usize,
}

impl Operands {
    /// The first operand alone.
    pub(crate) fn into_first(self) -> KExpr
        ensures { result ≡ self.first }
    {
        let Operands {
            first,
            second: _second,
            taken: _taken,
        } = self;
        first
    }
}

/// In how many places an expression reads a variable.
fn places(e: &KExpr, x: u64) -> usize {
    match e {
        KExpr::Num(_) | KExpr::Len(_) => 0,
        KExpr::Var(y) => usize::from(*y == x),
        KExpr::At(_, e) | KExpr::Width(e) => places(e.get(), x),
        KExpr::Bin(_, a, b) | KExpr::Min(a, b) => {
            places(a.get(), x).saturating_add(places(b.get(), x))
        }
    }
}

/// How many numbers, variables, lengths, loads and operators an expression has.
fn parts(e: &KExpr) -> usize {
    match e {
        KExpr::Num(_) | KExpr::Len(_) | KExpr::Var(_) => 1,
        KExpr::At(_, e) | KExpr::Width(e) => parts(e.get()).saturating_add(1),
        KExpr::Bin(_, a, b) | KExpr::Min(a, b) => {
            let both = parts(a.get()).saturating_add(parts(b.get()));
            both.saturating_add(1)
        }
    }
}

/// Whether a value may stand where a variable is read once, in operands of so many parts: a coordinate, which keeps its name, only where
/// the variable is the one operand, and nothing that makes them too long.
fn may_stand(e: &KExpr, both: usize) -> bool {
    let named = both > 2 && matches!(e, KExpr::At(Arr::Coordinates(_, _), _));
    !named && both.saturating_add(parts(e)) <= MOST_PARTS
}

/// Whether the statement that gives a variable this value may go: it isn't live behind operands, which don't read it, or in one place.
fn may_take(live: &[bool], x: u64, e: &KExpr, operands: &Operands) -> bool
    ensures { IsTrue result → is_live live.now x ≡ false }
{
    if is_live(live, x) {
        return false;
    }
    let both = parts(&operands.first).saturating_add(parts(&operands.second));
    let read = places(&operands.first, x).saturating_add(places(&operands.second, x));
    both <= MOST_PARTS && (read == 0 || read == 1 && may_stand(e, both))
}

/// An expression that has before a variable is given a value what this one has behind it. Refused only for want of memory.
fn put_in(alloc: Global, x: u64, e: &KExpr, f: &KExpr) -> Result<KExpr, AllocError>
    ensures { IfOk result (λ g. PutIn x e.now f.now g) }
{
    match f {
        KExpr::Num(n) => Ok(KExpr::Num(*n)),
        KExpr::Var(y) => {
            if x == *y {
                copy_expr(alloc, e)
            } else {
                Ok(KExpr::Var(*y))
            }
        }
        KExpr::At(a, i) => {
            let i = put_in(alloc, x, e, i.get())?;
            Ok(KExpr::At(*a, Boxed::new(alloc, i)?))
        }
        KExpr::Len(a) => Ok(KExpr::Len(*a)),
        KExpr::Bin(op, a, b) => {
            let a = put_in(alloc, x, e, a.get())?;
            let b = put_in(alloc, x, e, b.get())?;
            let a = Boxed::new(alloc, a)?;
            Ok(KExpr::Bin(*op, a, Boxed::new(alloc, b)?))
        }
        KExpr::Min(a, b) => {
            let a = put_in(alloc, x, e, a.get())?;
            let b = put_in(alloc, x, e, b.get())?;
            let a = Boxed::new(alloc, a)?;
            Ok(KExpr::Min(a, Boxed::new(alloc, b)?))
        }
        KExpr::Width(i) => {
            let i = put_in(alloc, x, e, i.get())?;
            Ok(KExpr::Width(Boxed::new(alloc, i)?))
        }
    }
}

/// Operands, with the values that the statements right before give to variables which are read there alone. Behind the operands these
/// variables are live.
fn gather(
    alloc: Global,
    before: &[KStmt],
    e: &KExpr,
    f: &KExpr,
    live: &[bool],
) -> Result<Operands, AllocError>
    ensures within { IfOk result (λ o. o.taken ≤ length before.now) }
    ensures gathers { IfOk result (λ o. Gathers live.now (last_of o.taken before.now) e.now f.now o.first o.second) }
{
    let first = copy_expr(alloc, e)?;
    let second = copy_expr(alloc, f)?;
    let mut operands = Operands {
        first,
        second,
        taken: 0,
    };
    for n in 0..before.len() {
        match &before[before.len() - 1 - n] {
            KStmt::Set(x, value) => {
                if !may_take(live, *x, value, &operands) {
                    return Ok(operands);
                }
                operands = Operands {
                    first: put_in(alloc, *x, value, &operands.first)?,
                    second: put_in(alloc, *x, value, &operands.second)?,
                    taken: n + 1,
                };
            }
            _ => return Ok(operands),
        }
    }
    Ok(operands)
}

/// Operands with what they read written in them, which is live from here on.
pub(crate) fn gather_live(
    alloc: Global,
    before: &[KStmt],
    e: &KExpr,
    f: &KExpr,
    live: &mut Items<bool>,
) -> Result<Operands, AllocError>
    ensures { IfOk result (λ o. AreGathered live.new live.old before.now e.now f.now o.first o.second o.taken) }
{
    let operands = gather(alloc, before, e, f, live.as_slice())?;
    add_reads(live, &operands.first);
    add_reads(live, &operands.second);
    Ok(operands)
}

/// The same of one operand.
pub(crate) fn gather_one(
    alloc: Global,
    before: &[KStmt],
    e: &KExpr,
    live: &mut Items<bool>,
) -> Result<Operands, AllocError>
    ensures { IfOk result (λ o. AreGathered live.new live.old before.now e.now (KExpr.Num 0) o.first o.second o.taken) }
{
    let none = KExpr::Num(0);
    gather_live(alloc, before, e, &none, live)
}
