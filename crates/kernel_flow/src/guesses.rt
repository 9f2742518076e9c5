// Which facts the turns of a loop may keep: a guess by the text alone. No contract tells it, since what comes of it is checked.
use crate::facts::{Fact, Shared};
use kernel_code::{KExpr, KStmt, Op};
use std::alloc::{AllocError, Global};
use trees::Items;

/// The variables below this number are told apart by place; others are looked for.
const MOST: u64 = 1 << 16;

/// Some variables.
#[derive(Drop)]
struct Variables {
    places: Items<bool>,
    others: Items<u64>,
}

impl Variables {
    fn new(alloc: Global) -> Variables {
        Variables {
            places: Items::new(alloc),
            others: Items::new(alloc),
        }
    }

    fn has(&self, x: u64) -> bool {
        if x < MOST {
            return self.places.get(x as usize).copied().unwrap_or(false);
        }
        is_among(self.others.as_slice(), x)
    }

    fn add(&mut self, x: u64) -> Result<(), AllocError> {
        if self.has(x) {
            return Ok(());
        }
        if x >= MOST {
            return self.others.push(x);
        }
        let at = x as usize;
        for _more in self.places.len()..at + 1 {
            self.places.push(false)?;
        }
        if at < self.places.len() {
            self.places.set(at, true);
        }
        Ok(())
    }
}

/// What a loop's body does with variables: those that it sets, those that it sets to what may be no word, the last one set, and those that
/// it may read once it is written by what is known.
#[derive(Drop)]
pub(crate) struct Changes {
    set: Variables,
    loaded: Variables,
    last: Option<u64>,
    read: Variables,
}

impl Changes {
    /// Those that it sets, a test for each.
    pub(crate) fn set(&self) -> &[bool] {
        self.set.places.as_slice()
    }
}

fn is_among(variables: &[u64], x: u64) -> bool {
    for y in variables {
        if *y == x {
            return true;
        }
    }
    false
}

/// Whether an expression is a word by its form.
fn is_counted(e: &KExpr) -> bool {
    match e {
        KExpr::Num(_) => true,
        KExpr::Bin(op, _, _) => *op != Op::BitAnd,
        _ => false,
    }
}

/// Adds the variables that an expression mentions.
fn add_reads(e: &KExpr, read: &mut Variables) -> Result<(), AllocError> {
    match e {
        KExpr::Num(_) => Ok(()),
        KExpr::Var(x) => read.add(*x),
        KExpr::At(_, i) => add_reads(i.get(), read),
        KExpr::Len(_) => Ok(()),
        KExpr::Bin(_, a, b) => {
            add_reads(a.get(), read)?;
            add_reads(b.get(), read)
        }
        KExpr::Min(a, b) => {
            add_reads(a.get(), read)?;
            add_reads(b.get(), read)
        }
        KExpr::Width(e) => add_reads(e.get(), read),
    }
}

#[cycle(changes)]
fn add_change(s: &KStmt, changes: &mut Changes) -> Result<(), AllocError> {
    match s {
        KStmt::Set(x, e) => {
            changes.set.add(*x)?;
            if !is_counted(e) {
                changes.loaded.add(*x)?;
            }
            add_reads(e, &mut changes.read)
        }
        KStmt::Combine(x, _, e, f) => {
            changes.set.add(*x)?;
            changes.loaded.add(*x)?;
            add_reads(e, &mut changes.read)?;
            add_reads(f, &mut changes.read)
        }
        KStmt::Put(_, i, e) | KStmt::AddTo(_, i, e) | KStmt::Extend(_, i, e) => {
            add_reads(i, &mut changes.read)?;
            add_reads(e, &mut changes.read)
        }
        KStmt::Push(_, e) | KStmt::Cut(_, e) => add_reads(e, &mut changes.read),
        KStmt::Sort(_) | KStmt::SortSum(_) => Ok(()),
        KStmt::If(test, first, second) => {
            add_reads(test, &mut changes.read)?;
            add_changes(first.as_slice(), changes)?;
            add_changes(second.as_slice(), changes)
        }
        KStmt::While(_, test, body) => {
            add_reads(test, &mut changes.read)?;
            add_changes(body.as_slice(), changes)
        }
    }
}

#[cycle(changes)]
fn add_changes(code: &[KStmt], changes: &mut Changes) -> Result<(), AllocError> {
    for s in code {
        add_change(s, changes)?;
    }
    Ok(())
}

/// Whether a fact may serve where some variables are read: it is told of them, or says under a test of them what one of them equals.
fn may_serve(fact: &Fact, read: &Variables) -> bool {
    if let KExpr::Bin(Op::And, test, side) = &fact.left
        && let KExpr::Bin(Op::Equal, a, _) = side.get()
    {
        return mentions_only(test.get(), read) && mentions_only(a.get(), read);
    }
    mentions_only(&fact.left, read)
}

/// Adds what facts write for what is read, and tells whether that is more.
fn add_written(facts: &[Shared], read: &mut Variables) -> Result<bool, AllocError> {
    let mut more = false;
    for shared in facts {
        let fact = shared.get();
        if may_serve(fact, read)
            && !(mentions_only(&fact.left, read) && mentions_only(&fact.right, read))
        {
            add_reads(&fact.left, read)?;
            add_reads(&fact.right, read)?;
            more = true;
        }
    }
    Ok(more)
}

/// The greatest number of facts of which one writes what the next one is told of.
const LONGEST_CHAIN: usize = 16;

/// What a loop does with variables where these facts are known before it. Refused only for want of memory.
pub(crate) fn changes_of(
    alloc: Global,
    test: &KExpr,
    body: &[KStmt],
    facts: &[Shared],
) -> Result<Changes, AllocError> {
    let mut changes = Changes {
        set: Variables::new(alloc),
        loaded: Variables::new(alloc),
        last: None,
        read: Variables::new(alloc),
    };
    add_reads(test, &mut changes.read)?;
    add_changes(body, &mut changes)?;
    if let Some(KStmt::Set(x, _)) = body.last() {
        changes.last = Some(*x);
    }
    for _step in 0..LONGEST_CHAIN {
        if !add_written(facts, &mut changes.read)? {
            return Ok(changes);
        }
    }
    Ok(changes)
}

/// Whether an expression mentions no other variables than some.
fn mentions_only(e: &KExpr, some: &Variables) -> bool {
    match e {
        KExpr::Num(_) => true,
        KExpr::Var(x) => some.has(*x),
        KExpr::At(_, i) => mentions_only(i.get(), some),
        KExpr::Len(_) => true,
        KExpr::Bin(_, a, b) => mentions_only(a.get(), some) && mentions_only(b.get(), some),
        KExpr::Min(a, b) => mentions_only(a.get(), some) && mentions_only(b.get(), some),
        KExpr::Width(e) => mentions_only(e.get(), some),
    }
}

fn mentions_set(e: &KExpr, set: &Variables) -> bool {
    match e {
        KExpr::Num(_) => false,
        KExpr::Var(x) => set.has(*x),
        KExpr::At(_, i) => mentions_set(i.get(), set),
        KExpr::Len(_) => false,
        KExpr::Bin(_, a, b) => mentions_set(a.get(), set) || mentions_set(b.get(), set),
        KExpr::Min(a, b) => mentions_set(a.get(), set) || mentions_set(b.get(), set),
        KExpr::Width(e) => mentions_set(e.get(), set),
    }
}

/// Whether a fact says that a variable is the last word, which a front keeps that is never stepped.
fn is_at_the_end(fact: &Fact) -> bool {
    match &fact.left {
        KExpr::Var(_) => match &fact.right {
            KExpr::Num(n) => *n == u64::MAX,
            _ => false,
        },
        _ => false,
    }
}

/// Whether a fact says what the body's last statement says too: the value of the variable that it sets, from others.
fn is_said_last(fact: &Fact, changes: &Changes) -> bool {
    match &changes.last {
        None => false,
        Some(x) => match &fact.left {
            KExpr::Var(y) => match &fact.right {
                KExpr::Var(_) => *x == *y,
                _ => false,
            },
            KExpr::Min(_, _) => match &fact.right {
                KExpr::Var(y) => *x == *y,
                _ => false,
            },
            _ => false,
        },
    }
}

/// Whether a fact says that a variable is a word, which is only ever set to words.
fn is_of_words(fact: &Fact, changes: &Changes) -> bool {
    match &fact.left {
        KExpr::Min(a, _) => match a.get() {
            KExpr::Var(x) => match &fact.right {
                KExpr::Var(y) => *x == *y && !changes.loaded.has(*x),
                _ => false,
            },
            _ => false,
        },
        _ => false,
    }
}

/// Whether the turns of a loop may keep a fact, and it may serve in them: it mentions nothing that they set, and may be told of what they
/// read, or says what they seem to leave.
pub(crate) fn is_likely(fact: &Fact, changes: &Changes) -> bool {
    if !mentions_set(&fact.left, &changes.set) && !mentions_set(&fact.right, &changes.set) {
        return may_serve(fact, &changes.read);
    }
    is_at_the_end(fact) || is_said_last(fact, changes) || is_of_words(fact, changes)
}
