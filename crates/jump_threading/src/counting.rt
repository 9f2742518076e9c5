// How many statements behind a choice are taken into its bodies: what a body is likely to settle, as long as little is written twice. No
// contract tells which, since the code does the same whichever they are.
ghost use Rattle.std.specs.Prelude.{◌≤◌, length};

use crate::exprs::{avoids, reads_written};
use kernel_code::{KExpr, KStmt, count_statements};
use simplifier::same_expr;

/// The greatest number of statements that are written twice behind one choice.
const MOST_TWICE: u64 = 40;

/// What code gives a variable: numbers, something else.
#[derive(Drop)]
struct Given {
    number: bool,
    other: bool,
}

impl Given {
    #[cycle(gives)]
    fn add_statement(&mut self, s: &KStmt, x: u64) {
        match s {
            KStmt::Set(y, KExpr::Num(_)) => self.number = self.number || *y == x,
            KStmt::Set(y, _) | KStmt::Combine(y, _, _, _) => self.other = self.other || *y == x,
            KStmt::If(_, first, second) => {
                self.add(first.as_slice(), x);
                self.add(second.as_slice(), x);
            }
            KStmt::While(_, _, body) => self.add(body.as_slice(), x),
            _ => (),
        }
    }

    /// Adds what code gives a variable.
    #[cycle(gives)]
    fn add(&mut self, code: &[KStmt], x: u64) {
        for s in code {
            self.add_statement(s, x);
        }
    }
}

/// Whether a choice, with what it has taken in, gives a variable a number, and nowhere anything else.
fn is_flag(first: &[KStmt], second: &[KStmt], taken: &[KStmt], x: u64) -> bool {
    let mut given = Given {
        number: false,
        other: false,
    };
    given.add(first, x);
    given.add(second, x);
    given.add(taken, x);
    given.number && !given.other
}

#[cycle(sets)]
fn statement_sets(s: &KStmt, e: &KExpr) -> bool {
    match s {
        KStmt::Set(x, _) | KStmt::Combine(x, _, _, _) => !avoids(e, *x),
        KStmt::If(_, first, second) => {
            sets_mentioned(first.as_slice(), e) || sets_mentioned(second.as_slice(), e)
        }
        KStmt::While(_, _, body) => sets_mentioned(body.as_slice(), e),
        _ => false,
    }
}

/// Whether code gives a variable a value that an expression mentions.
#[cycle(sets)]
fn sets_mentioned(code: &[KStmt], e: &KExpr) -> bool {
    for s in code {
        if statement_sets(s, e) {
            return true;
        }
    }
    false
}

#[cycle(loops)]
fn statement_loops(s: &KStmt) -> bool {
    match s {
        KStmt::If(_, first, second) => has_loop(first.as_slice()) || has_loop(second.as_slice()),
        KStmt::While(_, _, _) => true,
        _ => false,
    }
}

/// Whether code has a loop.
#[cycle(loops)]
fn has_loop(code: &[KStmt]) -> bool {
    for s in code {
        if statement_loops(s) {
            return true;
        }
    }
    false
}

/// Whether a test is one variable to which a choice, with what it has taken in, gives numbers alone.
fn tests_flag(test: &KExpr, first: &[KStmt], second: &[KStmt], taken: &[KStmt]) -> bool {
    match test {
        KExpr::Var(x) => is_flag(first, second, taken, *x),
        _ => false,
    }
}

/// How many statements are written twice where a choice with these bodies is taken in; none tells that loops would be.
fn written_twice(first: &[KStmt], second: &[KStmt]) -> Option<u64> {
    if has_loop(first) || has_loop(second) {
        return None;
    }
    let bodies = count_statements(first).saturating_add(count_statements(second));
    Some(bodies.saturating_add(1))
}

/// Whether a test settles another one behind its choice, with what that has taken in: it is the same, and keeps its value.
fn settles(
    test: &KExpr,
    again: &KExpr,
    first: &[KStmt],
    second: &[KStmt],
    taken: &[KStmt],
) -> bool {
    same_expr(test, again)
        && !reads_written(test)
        && !sets_mentioned(first, test)
        && !sets_mentioned(second, test)
        && !sets_mentioned(taken, test)
}

/// How many statements behind a choice are taken into its bodies: choices by the same test, while that keeps its value, and by variables
/// that have been given numbers alone. Of what one body drops as a whole there may be as much as there is; the rest is written twice.
pub(crate) fn count_taken(
    test: &KExpr,
    first: &[KStmt],
    second: &[KStmt],
    behind: &[KStmt],
) -> usize
    ensures { result ≤ length behind.now }
{
    let mut twice: u64 = 0;
    for taken in 0..behind.len() {
        let KStmt::If(again, one, other) = &behind[taken] else {
            return taken;
        };
        let settled = settles(test, again, first, second, &behind[..taken]);
        if !settled && !tests_flag(again, first, second, &behind[..taken]) {
            return taken;
        }
        if !settled || !other.is_empty() {
            let Some(more) = written_twice(one.as_slice(), other.as_slice()) else {
                return taken;
            };
            twice = twice.saturating_add(more);
        }
        if twice > MOST_TWICE {
            return taken;
        }
    }
    behind.len()
}
