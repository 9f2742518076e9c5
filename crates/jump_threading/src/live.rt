// Which variables may be read behind a place of code. No contract tells it: it only says which statements are taken into bodies, and code
// does the same whichever they are.
use kernel_code::{KExpr, KStmt};
use std::alloc::{AllocError, Global};
use trees::Items;

/// Variables from here on are left out.
const MOST: u64 = 1 << 16;

/// A bit for each variable, 64 in a word: whether it may be read. A variable past the end may not.
#[derive(Drop)]
pub(crate) struct Live {
    words: Items<u64>,
}

impl Live {
    /// No variable may be read.
    pub(crate) fn none(alloc: Global) -> Live {
        Live {
            words: Items::new(alloc),
        }
    }

    /// The same variables. Refused only for want of memory.
    pub(crate) fn copy(&self, alloc: Global) -> Result<Live, AllocError> {
        let words = Items::from_slice(alloc, self.words.as_slice())?;
        Ok(Live { words })
    }

    fn word(&self, at: usize) -> u64 {
        match self.words.get(at) {
            Some(word) => *word,
            None => 0,
        }
    }

    /// Whether a variable may be read.
    pub(crate) fn has(&self, x: u64) -> bool {
        self.word((x / 64) as usize) & (1 << (x % 64)) != 0
    }

    /// Puts a word in its place, or at the end where that is the place.
    fn put(&mut self, at: usize, word: u64) -> Result<(), AllocError> {
        if at < self.words.len() {
            self.words.set(at, word);
            return Ok(());
        }
        self.words.push(word)
    }

    fn make_room(&mut self, at: usize) -> Result<(), AllocError> {
        for _n in self.words.len()..=at {
            self.words.push(0)?;
        }
        Ok(())
    }

    fn add(&mut self, x: u64) -> Result<(), AllocError> {
        if x >= MOST {
            return Ok(());
        }
        let at = (x / 64) as usize;
        self.make_room(at)?;
        let word = self.word(at) | (1 << (x % 64));
        self.put(at, word)
    }

    /// A variable is set: what it held isn't read.
    pub(crate) fn forget(&mut self, x: u64) {
        let at = (x / 64) as usize;
        let bit = self.word(at) & (1 << (x % 64));
        let word = self.word(at) ^ bit;
        if at < self.words.len() {
            self.words.set(at, word);
        }
    }

    /// The variables that an expression mentions are read. Refused only for want of memory.
    pub(crate) fn add_reads(&mut self, e: &KExpr) -> Result<(), AllocError> {
        match e {
            KExpr::Num(_) | KExpr::Len(_) => Ok(()),
            KExpr::Var(x) => self.add(*x),
            KExpr::At(_, e) | KExpr::Width(e) => self.add_reads(e.get()),
            KExpr::Bin(_, a, b) | KExpr::Min(a, b) => {
                self.add_reads(a.get())?;
                self.add_reads(b.get())
            }
        }
    }

    /// What may be read elsewhere may be read. Refused only for want of memory.
    pub(crate) fn join(&mut self, other: &Live) -> Result<(), AllocError> {
        for at in 0..other.words.len() {
            let both = self.word(at) | other.word(at);
            self.put(at, both)?;
        }
        Ok(())
    }

    /// What may be read behind a loop becomes what may be read before it, and behind each of its turns.
    #[cycle(passes)]
    pub(crate) fn enter_loop(
        &mut self,
        alloc: Global,
        body: &[KStmt],
        test: &KExpr,
    ) -> Result<(), AllocError> {
        let mut first = Live::none(alloc);
        first.pass(alloc, body)?;
        self.join(&first)?;
        self.add_reads(test)
    }

    /// What may be read behind a statement becomes what may be read before it. Refused only for want of memory.
    #[cycle(passes)]
    pub(crate) fn pass_statement(&mut self, alloc: Global, s: &KStmt) -> Result<(), AllocError> {
        match s {
            KStmt::Set(x, e) => {
                self.forget(*x);
                self.add_reads(e)
            }
            KStmt::Combine(x, _, e, f) => {
                self.forget(*x);
                self.add_reads(e)?;
                self.add_reads(f)
            }
            KStmt::Put(_, i, e) | KStmt::AddTo(_, i, e) | KStmt::Extend(_, i, e) => {
                self.add_reads(i)?;
                self.add_reads(e)
            }
            KStmt::Push(_, e) | KStmt::Cut(_, e) => self.add_reads(e),
            KStmt::Sort(_) | KStmt::SortSum(_) => Ok(()),
            KStmt::If(test, first, second) => {
                let mut there = self.copy(alloc)?;
                there.pass(alloc, first.as_slice())?;
                self.pass(alloc, second.as_slice())?;
                self.join(&there)?;
                self.add_reads(test)
            }
            KStmt::While(_, test, body) => self.enter_loop(alloc, body.as_slice(), test),
        }
    }

    /// The same of code.
    #[cycle(passes)]
    fn pass(&mut self, alloc: Global, code: &[KStmt]) -> Result<(), AllocError> {
        for n in 0..code.len() {
            self.pass_statement(alloc, &code[code.len() - 1 - n])?;
        }
        Ok(())
    }
}
