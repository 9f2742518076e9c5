// A guess which variables a loop's body reads before it sets them. No contract tells it: what comes of it is checked.
ghost use Rattle.std.specs.Prelude.{OnOk};
ghost use Rattle.dead_code.specs.Live.{Covers};

use crate::live::join;
use kernel_code::{KExpr, KStmt};
use std::alloc::{AllocError, Global};
use trees::Items;

/// Some of so many variables, a bit for each.
#[derive(Drop)]
struct Variables {
    words: Items<u64>,
}

impl Variables {
    /// None of so many.
    fn none_of(alloc: Global, count: usize) -> Result<Variables, AllocError> {
        let mut words = Items::new(alloc);
        for _word in 0..count / 64 + 1 {
            words.push(0)?;
        }
        Ok(Variables { words })
    }

    fn copied(&self, alloc: Global) -> Result<Variables, AllocError> {
        let words = Items::from_slice(alloc, self.words.as_slice())?;
        Ok(Variables { words })
    }

    /// The word in which the bit of a variable is, and those beside it.
    fn word_of(&self, x: u64) -> u64 {
        self.words.get((x / 64) as usize).copied().unwrap_or(0)
    }

    fn put_word(&mut self, x: u64, word: u64) {
        let at = (x / 64) as usize;
        if at < self.words.len() {
            self.words.set(at, word);
        }
    }

    fn has(&self, x: u64) -> bool {
        (self.word_of(x) >> (x % 64)) & 1 == 1
    }

    fn add(&mut self, x: u64) {
        let word = self.word_of(x) | (1 << (x % 64));
        self.put_word(x, word);
    }

    fn forget(&mut self, x: u64) {
        let word = self.word_of(x) & !(1 << (x % 64));
        self.put_word(x, word);
    }

    /// A test for each of so many variables.
    fn tests(&self, alloc: Global, count: usize) -> Result<Items<bool>, AllocError> {
        let mut tests = Items::new(alloc);
        for x in 0..count as u64 {
            tests.push(self.has(x))?;
        }
        Ok(tests)
    }

    /// Adds the variables that an expression mentions.
    fn add_reads(&mut self, e: &KExpr) {
        match e {
            KExpr::Num(_) => (),
            KExpr::Var(x) => self.add(*x),
            KExpr::At(_, i) => self.add_reads(i.get()),
            KExpr::Len(_) => (),
            KExpr::Bin(_, a, b) => {
                self.add_reads(a.get());
                self.add_reads(b.get());
            }
            KExpr::Min(a, b) => {
                self.add_reads(a.get());
                self.add_reads(b.get());
            }
            KExpr::Width(e) => self.add_reads(e.get()),
        }
    }

    /// Adds those of another list.
    fn join(&mut self, other: &Variables) {
        for at in 0..self.words.len() {
            let both = self.words.get(at).copied().unwrap_or(0)
                | other.words.get(at).copied().unwrap_or(0);
            if at < self.words.len() {
                self.words.set(at, both);
            }
        }
    }
}

/// What is read before a statement, of what is read behind it.
#[cycle(reads)]
fn reads_before_statement(
    alloc: Global,
    s: &KStmt,
    read: &mut Variables,
    count: usize,
) -> Result<(), AllocError> {
    match s {
        KStmt::Set(x, e) => {
            read.forget(*x);
            read.add_reads(e);
        }
        KStmt::Combine(x, _, e, f) => {
            read.forget(*x);
            read.add_reads(e);
            read.add_reads(f);
        }
        KStmt::Put(_, i, e) | KStmt::AddTo(_, i, e) | KStmt::Extend(_, i, e) => {
            read.add_reads(i);
            read.add_reads(e);
        }
        KStmt::Push(_, e) | KStmt::Cut(_, e) => read.add_reads(e),
        KStmt::Sort(_) | KStmt::SortSum(_) => (),
        KStmt::If(test, first, second) => {
            let mut there = read.copied(alloc)?;
            reads_before(alloc, first.as_slice(), &mut there, count)?;
            reads_before(alloc, second.as_slice(), read, count)?;
            read.join(&there);
            read.add_reads(test);
        }
        KStmt::While(_, test, body) => {
            read.add_reads(test);
            let first = first_reads(alloc, body.as_slice(), count)?;
            read.join(&first);
        }
    }
    Ok(())
}

/// What is read before code, of what is read behind it.
#[cycle(reads)]
fn reads_before(
    alloc: Global,
    code: &[KStmt],
    read: &mut Variables,
    count: usize,
) -> Result<(), AllocError> {
    for n in 0..code.len() {
        reads_before_statement(alloc, &code[code.len() - 1 - n], read, count)?;
    }
    Ok(())
}

/// What code reads before it sets it, of so many variables.
#[cycle(reads)]
fn first_reads(alloc: Global, code: &[KStmt], count: usize) -> Result<Variables, AllocError> {
    let mut first = Variables::none_of(alloc, count)?;
    reads_before(alloc, code, &mut first, count)?;
    Ok(first)
}

/// Adds what code reads before it sets it. Refused only for want of memory.
pub(crate) fn add_first_reads(
    alloc: Global,
    code: &[KStmt],
    live: &mut Items<bool>,
) -> Result<(), AllocError>
    ensures { OnOk result (Covers live.new live.old) }
{
    let first = first_reads(alloc, code, live.len())?;
    let tests = first.tests(alloc, live.len())?;
    join(live, tests.as_slice());
    Ok(())
}
