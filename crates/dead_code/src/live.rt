// Tests that tell which variables may be read.
ghost use Rattle.std.specs.Prelude.{◌≡◌, IsTrue, true};
ghost use Rattle.dead_code.specs.Live.{Covers, CoversBut, ReadsLive, is_live};

use kernel_code::KExpr;
use std::alloc::{AllocError, Global};
use trees::Items;

/// Whether a variable may be read; one past the end may be.
pub(crate) fn is_live(live: &[bool], x: u64) -> bool
    ensures { result ≡ is_live live.now x }
{
    match live.get(x as usize) {
        Some(test) => *test,
        None => true,
    }
}

/// From here on a variable may be read.
pub(crate) fn add(live: &mut Items<bool>, x: u64)
    ensures added { is_live live.new x ≡ true }
    ensures covers { Covers live.new live.old }
{
    if x < live.len() as u64 {
        live.set(x as usize, true);
    }
}

/// From here on what a variable holds isn't read.
pub(crate) fn forget(live: &mut Items<bool>, x: u64)
    ensures { CoversBut x live.new live.old }
{
    if x < live.len() as u64 {
        live.set(x as usize, false);
    }
}

/// The variables that an expression mentions are read.
pub(crate) fn add_reads(live: &mut Items<bool>, e: &KExpr)
    ensures reads { ReadsLive live.new e.now }
    ensures covers { Covers live.new live.old }
{
    match e {
        KExpr::Num(_) => (),
        KExpr::Var(x) => add(live, *x),
        KExpr::At(_, i) => add_reads(live, i.get()),
        KExpr::Len(_) => (),
        KExpr::Bin(_, a, b) => {
            add_reads(live, a.get());
            add_reads(live, b.get());
        }
        KExpr::Min(a, b) => {
            add_reads(live, a.get());
            add_reads(live, b.get());
        }
        KExpr::Width(e) => add_reads(live, e.get()),
    }
}

/// What is live in another list is live.
pub(crate) fn join(live: &mut Items<bool>, other: &[bool])
    ensures first { Covers live.new live.old }
    ensures second { Covers live.new other.now }
{
    for x in 0..live.len() {
        if x < live.len() && is_live(other, x as u64) {
            live.set(x, true);
        }
    }
}

/// Whether each variable that is live in another list is live.
pub(crate) fn covers(live: &[bool], other: &[bool]) -> bool
    ensures { IsTrue result → Covers live.now other.now }
{
    for x in 0..live.len() {
        if !live[x] && is_live(other, x as u64) {
            return false;
        }
    }
    true
}

/// As many variables, none of which is read. Refused only for want of memory.
pub(crate) fn none_of(alloc: Global, count: usize) -> Result<Items<bool>, AllocError> {
    let mut none = Items::new(alloc);
    for _x in 0..count {
        none.push(false)?;
    }
    Ok(none)
}
