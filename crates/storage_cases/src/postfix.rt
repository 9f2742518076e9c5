//! Kernels from words that each take what they need from those before. Each call answers none where a word isn't one, where what it
//! takes is missing, or for want of memory.
use crate::names::{LOOPS, OPERATORS, array, named};
use kernel_code::{Arr, KExpr, KStmt, Kernel, KernelSemiring, LoopKind, ValueOp};
use numbers::Semiring;
use std::alloc::Global;
use std::mem;
use trees::{Boxed, Items};

/// A kernel so far, whose body is the innermost one that is open; those around it; and expressions and bodies that wait to be taken.
#[derive(Drop)]
pub(crate) struct Postfix {
    alloc: Global,
    kernel: Kernel,
    operands: Items<KExpr>,
    bodies: Items<Items<KStmt>>,
    outer: Items<Items<KStmt>>,
}

fn leaf(word: &str) -> Option<KExpr> {
    if let Some(name) = word.strip_prefix("#") {
        return Some(KExpr::Len(array(name)?));
    }
    match word.strip_prefix("x") {
        Some(number) => Some(KExpr::Var(number.parse().ok()?)),
        None => Some(KExpr::Num(word.parse().ok()?)),
    }
}

impl Postfix {
    pub(crate) fn new(alloc: Global) -> Postfix {
        Postfix {
            alloc,
            kernel: Kernel {
                semiring: KernelSemiring::Ring,
                workspaces: Items::new(alloc),
                lists: 0,
                body: Items::new(alloc),
            },
            operands: Items::new(alloc),
            bodies: Items::new(alloc),
            outer: Items::new(alloc),
        }
    }

    /// Takes the kernel, where no body is open; a new one begins.
    pub(crate) fn take_kernel(&mut self) -> Kernel {
        mem::replace(self, Postfix::new(self.alloc)).kernel
    }

    /// The kernel is over a semiring.
    pub(crate) fn set_semiring<S: Semiring>(&mut self) -> Option<()> {
        self.kernel.semiring = KernelSemiring::of::<S>(self.alloc).ok()?;
        Some(())
    }

    /// One more workspace, with so many keys.
    pub(crate) fn add_workspace(&mut self, keys: &str) -> Option<()> {
        self.kernel.workspaces.push(keys.parse().ok()?).ok()
    }

    /// One more scratch list.
    pub(crate) fn add_list(&mut self) {
        self.kernel.lists = self.kernel.lists.wrapping_add(1);
    }

    fn operand(&mut self) -> Option<Boxed<KExpr>> {
        Boxed::new(self.alloc, self.operands.pop()?).ok()
    }

    fn expression(&mut self, word: &str) -> Option<KExpr> {
        if let Some(array) = array(word) {
            return Some(KExpr::At(array, self.operand()?));
        }
        if word == "width" {
            return Some(KExpr::Width(self.operand()?));
        }
        let op = named(&OPERATORS, word);
        if op.is_none() && word != "min" {
            return leaf(word);
        }
        let second = self.operand()?;
        let first = self.operand()?;
        match op {
            Some(op) => Some(KExpr::Bin(op, first, second)),
            None => Some(KExpr::Min(first, second)),
        }
    }

    // A statement on two expressions.
    fn pair(&mut self, name: &str, array: Option<Arr>, number: Option<u64>) -> Option<KStmt> {
        let second = self.operands.pop()?;
        let first = self.operands.pop()?;
        match (name, array, number) {
            ("plus", _, Some(var)) => Some(KStmt::Combine(var, ValueOp::Plus, first, second)),
            ("times", _, Some(var)) => Some(KStmt::Combine(var, ValueOp::Times, first, second)),
            ("put", Some(array), _) => Some(KStmt::Put(array, first, second)),
            ("add", Some(array), _) => Some(KStmt::AddTo(array, first, second)),
            ("extend", Some(array), _) => Some(KStmt::Extend(array, first, second)),
            _ => None,
        }
    }

    fn looped(&mut self, kind: LoopKind) -> Option<KStmt> {
        let test = self.operands.pop()?;
        Some(KStmt::While(kind, test, self.bodies.pop()?))
    }

    fn statement(&mut self, name: &str, what: &str) -> Option<KStmt> {
        let (array, number) = (array(what), what.parse().ok());
        match (name, array, number) {
            ("set", _, Some(var)) => Some(KStmt::Set(var, self.operands.pop()?)),
            ("push", Some(array), _) => Some(KStmt::Push(array, self.operands.pop()?)),
            ("cut", Some(array), _) => Some(KStmt::Cut(array, self.operands.pop()?)),
            ("sort", _, Some(list)) => Some(KStmt::Sort(list)),
            ("sort_sum", _, Some(workspace)) => Some(KStmt::SortSum(workspace)),
            ("while", _, _) => self.looped(named(&LOOPS, what)?),
            _ => self.pair(name, array, number),
        }
    }

    fn choice(&mut self) -> Option<KStmt> {
        let second = self.bodies.pop()?;
        let first = self.bodies.pop()?;
        Some(KStmt::If(self.operands.pop()?, first, second))
    }

    fn begin(&mut self) -> Option<()> {
        let around = mem::replace(&mut self.kernel.body, Items::new(self.alloc));
        self.outer.push(around).ok()
    }

    fn end(&mut self) -> Option<()> {
        let around = self.outer.pop()?;
        let body = mem::replace(&mut self.kernel.body, around);
        self.bodies.push(body).ok()
    }

    fn add(&mut self, statement: KStmt) -> Option<()> {
        self.kernel.body.push(statement).ok()
    }

    fn read(&mut self, word: &str) -> Option<()> {
        match word {
            "[" => return self.begin(),
            "]" => return self.end(),
            "if" => {
                let choice = self.choice()?;
                return self.add(choice);
            }
            _ => {}
        }
        match word.split_once(':') {
            Some((name, what)) => {
                let statement = self.statement(name, what)?;
                self.add(statement)
            }
            None => {
                let expression = self.expression(word)?;
                self.operands.push(expression).ok()
            }
        }
    }

    /// Reads words, parted by blanks.
    pub(crate) fn read_words(&mut self, words: &str) -> Option<()> {
        for word in words.split(' ') {
            self.read(word)?;
        }
        Some(())
    }
}
