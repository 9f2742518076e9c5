//! The ranges of a statement's variables.
use case_files::Answer;
use expr_terms::{Bound, ranges};
use index_notation::Statement;

/// The range of each variable, where it is given one.
fn given_of(answer: &mut Answer, words: &str) -> Vec<Option<u64>> {
    let mut given = Vec::new(answer.alloc());
    for word in words.split_whitespace() {
        answer.note(given.push(word.parse::<u64>().ok()));
    }
    given
}

/// Bounds such as `=4 7`: a size, and a greatest coordinate.
fn bounds_of(answer: &mut Answer, words: &str) -> Option<Vec<Bound>> {
    let mut bounds = Vec::new(answer.alloc());
    for word in words.split_whitespace() {
        answer.note(bounds.push(match word.strip_prefix('=') {
            Some(size) => Bound::Exact(size.parse::<u64>().ok()?),
            None => Bound::AtLeast(word.parse::<u64>().ok()?),
        }));
    }
    Some(bounds)
}

/// The ranges of a statement's variables, or their fault.
pub(crate) fn tell_ranges(answer: &mut Answer, statement: &Statement, text: &str) -> Option<()> {
    let mut parts = text.split('|');
    let given = given_of(answer, parts.next()?);
    let mut bounds = Vec::new(answer.alloc());
    for part in parts {
        let bounds_there = bounds_of(answer, part)?;
        answer.note(bounds.push(bounds_there));
    }
    let found = ranges(
        answer.alloc(),
        statement,
        given.as_slice(),
        bounds.as_slice(),
    );
    answer.show(&found);
    Some(())
}
