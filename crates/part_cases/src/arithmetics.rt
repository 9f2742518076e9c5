//! Cases of what is generic over a semiring: words, entries, workspaces and values of statements, over the ring of words and over lengths.
use case_files::Answer;
use expr_terms::{has_meaning, value_at};
use index_notation::Statement;
use limits::greatest_order_of_tensor;
use notation_reader::parse;
use numbers::{Ring, Semiring, signed, sub};
use semirings::{Bits, MinPlus};
use tensor_map::Entries;
use workspaces::{CoordWorkspace, presence};

/// The entries of a text.
fn entries_of(answer: &mut Answer, text: &str, order: usize) -> Option<Entries> {
    if order as u64 > greatest_order_of_tensor() {
        return None;
    }
    let entries = Entries::new(answer.alloc(), order);
    let mut entries = answer.made(entries)?;
    for line in text.split(';') {
        let numbers = answer.numbers(line)?;
        if let Some((value, coords)) = numbers.as_slice().split_last() {
            if coords.len() != entries.order() {
                return None;
            }
            answer.note(entries.push(coords, *value));
        }
    }
    Some(entries)
}

/// Entries, each behind a blank, parted by `;`, on a line of their own.
fn tell_entries(answer: &mut Answer, entries: &Entries) {
    for i in 0..entries.len() {
        answer.tell(if i > 0 { ";" } else { "" });
        answer.show_all(entries.coords(i).as_slice());
        answer.tell(" ");
        answer.show(entries.value(i));
    }
    answer.tell("\n");
}

/// The sum and the product of two words, and minus one, if there is one.
fn tell_sum_and_product<S: Semiring>(answer: &mut Answer, a: u64, b: u64) {
    answer.tell(S::name());
    answer.tell(": plus ");
    answer.show(S::plus(S::zero(), S::plus(a, b)));
    answer.tell(" times ");
    answer.show(S::times(S::one(), S::times(a, b)));
    if let Some(minus) = S::minus_one() {
        answer.tell(" minus one ");
        answer.show(minus);
    }
    answer.tell("\n");
}

/// What semirings and words make of two words.
pub(crate) fn tell_words(answer: &mut Answer, case: &str) -> Option<()> {
    let numbers = answer.numbers(case)?;
    let [a, b] = numbers.as_slice() else {
        return None;
    };
    let (a, b) = (*a, *b);
    tell_sum_and_product::<Ring>(answer, a, b);
    tell_sum_and_product::<MinPlus>(answer, a, b);
    tell_sum_and_product::<Bits>(answer, a, b);
    answer.tell("difference ");
    answer.show(sub(a, b));
    answer.tell(" signed ");
    answer.show(signed(a));
    Some(())
}

/// The sums of entries, and those of them that aren't zero.
fn tell_sums<S: Semiring>(answer: &mut Answer, order: usize, text: &str) -> Option<()> {
    let mut entries = entries_of(answer, text, order)?;
    entries.sort_sum::<S>().ok()?;
    answer.tell(S::name());
    answer.tell(":");
    tell_entries(answer, &entries);
    entries.nonzero::<S>();
    answer.tell(S::name());
    answer.tell(", not zero:");
    tell_entries(answer, &entries);
    Some(())
}

/// Adds each entry to a workspace, as a pair. There is room for the pairs of a case, so it is refused for want of memory alone.
fn add_all(answer: &mut Answer, workspace: &mut CoordWorkspace, pairs: &Entries) -> Option<()> {
    for i in 0..pairs.len() {
        let coords = pairs.coords(i);
        if coords.len() != workspace.keys() {
            return None;
        }
        answer.note(workspace.add(coords.as_slice(), pairs.value(i)));
    }
    Some(())
}

/// What each drain of one workspace gives that is filled again and again.
fn tell_drains<S: Semiring>(answer: &mut Answer, order: usize, rounds: &str) -> Option<()> {
    if order as u64 > greatest_order_of_tensor() {
        return None;
    }
    let workspace = CoordWorkspace::new(answer.alloc(), order);
    let mut workspace = answer.made(workspace)?;
    for round in rounds.split('/') {
        let pairs = entries_of(answer, round, order)?;
        add_all(answer, &mut workspace, &pairs)?;
        answer.tell(S::name());
        answer.tell(":");
        let sums = workspace.drain_sorted::<S>();
        let sums = answer.made(sums)?;
        tell_entries(answer, &sums);
    }
    Some(())
}

/// The entries of the tensors of the accesses, in order.
fn operands_of(answer: &mut Answer, statement: &Statement, text: &str) -> Option<Vec<Entries>> {
    let mut operands = Vec::new(answer.alloc());
    for (access, entries) in statement.accesses.as_slice().iter().zip(text.split('/')) {
        let entries = entries_of(answer, entries, access.vars.len())?;
        answer.note(operands.push(entries));
    }
    Some(operands)
}

/// The value of a statement at coordinates of the left side, if it has a meaning; where none are named, the values of the right side, of
/// one variable, at the points 0, 1, 2 and 3, with a minus where it is absent.
fn tell_values<S: Semiring>(
    answer: &mut Answer,
    text: &str,
    entries: &str,
    at: Option<(&[u64], &[u64])>,
) -> Option<()> {
    let statement = parse(answer.alloc(), text.trim()).ok()?;
    if !statement.sums.is_empty() {
        return None;
    }
    let operands = operands_of(answer, &statement, entries)?;
    let operands = operands.as_slice();
    answer.tell(S::name());
    if !has_meaning::<S>(&statement.expr) {
        answer.tell(": no meaning\n");
        return Some(());
    }
    answer.tell(":");
    if let Some((ranges, coords)) = at {
        let value = value_at::<S>(answer.alloc(), &statement, operands, ranges, coords);
        let value = answer.made(value)?;
        answer.tell(" ");
        answer.show(value);
        answer.tell("\n");
        return Some(());
    }
    for coordinate in 0..4u64 {
        match presence::<S>(
            answer.alloc(),
            &statement,
            operands,
            &[coordinate],
            &statement.expr,
        ) {
            Some(value) => {
                answer.tell(" ");
                answer.show(value);
            }
            None => answer.tell(" -"),
        }
    }
    answer.tell("\n");
    Some(())
}

/// What comes of entries, and of a workspace that is filled with them.
pub(crate) fn tell_entries_or_drains(answer: &mut Answer, keyword: &str, case: &str) -> Option<()> {
    let (order, entries) = case.split_once('|')?;
    let order = order.trim().parse::<usize>().ok()?;
    if keyword == "entries:" {
        tell_sums::<Ring>(answer, order, entries)?;
        return tell_sums::<MinPlus>(answer, order, entries);
    }
    tell_drains::<Ring>(answer, order, entries)?;
    tell_drains::<MinPlus>(answer, order, entries)
}

/// What comes of a statement.
pub(crate) fn tell_statement_values(answer: &mut Answer, keyword: &str, case: &str) -> Option<()> {
    let (text, case) = case.split_once('|')?;
    if keyword == "present:" {
        tell_values::<Ring>(answer, text, case, None)?;
        return tell_values::<MinPlus>(answer, text, case, None);
    }
    let (ranges, case) = case.split_once('|')?;
    let (coords, entries) = case.split_once('|')?;
    let ranges = answer.numbers(ranges)?;
    let coords = answer.numbers(coords)?;
    let at = Some((ranges.as_slice(), coords.as_slice()));
    tell_values::<Ring>(answer, text, entries, at)?;
    tell_values::<MinPlus>(answer, text, entries, at)
}
