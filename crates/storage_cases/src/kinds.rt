//! Cases of the properties and the capabilities of a kind, and of how many positions a level of it has.
use crate::names::named;
use case_files::{Answer, keyword_of};
use level_core::{Letter, caps_of, props_of};
use level_rows::prepared_positions;

/// The kinds by their letters.
const LETTERS: [(&'static str, Letter); 6] = [
    ("d", Letter::Dense),
    ("s", Letter::Compressed),
    ("u", Letter::CompressedGroups),
    ("q", Letter::Singleton),
    ("c", Letter::SingletonGroups),
    ("h", Letter::Hashed),
];

/// The words of those tests that hold.
fn tell_those_that_hold(answer: &mut Answer, letter: Letter, verb: &str, tests: &[(bool, &str)]) {
    answer.show(letter);
    answer.tell(verb);
    for (holds, word) in tests {
        if *holds {
            answer.tell(" ");
            answer.tell(*word);
        }
    }
    answer.tell("\n");
}

/// What is true of the entries of levels of a kind, and what can be done with them.
pub(crate) fn tell_kind(answer: &mut Answer, word: &str) -> Option<()> {
    let letter = named(&LETTERS, word)?;
    let properties = props_of(letter);
    let capabilities = caps_of(letter);
    tell_those_that_hold(
        answer,
        letter,
        " is",
        &[
            (properties.full, "full"),
            (properties.ordered, "ordered"),
            (properties.unique, "unique"),
            (properties.branchless, "branchless"),
            (properties.compact, "compact"),
        ],
    );
    tell_those_that_hold(
        answer,
        letter,
        " can",
        &[
            (capabilities.coordinate_iteration, "coordinates"),
            (capabilities.position_iteration, "positions"),
            (capabilities.locate, "locate"),
            (capabilities.insert, "insert"),
            (capabilities.append, "append"),
        ],
    );
    Some(())
}

/// A block of slots has a width for so many coordinates at most.
const GREATEST_BLOCK: u64 = 1 << 62;

/// How many positions a level of a kind has, of this range and once so many parents are prepared, each for at most so many coordinates.
pub(crate) fn tell_positions_of(answer: &mut Answer, line: &str) -> Option<()> {
    let (word, rest) = keyword_of(line);
    let letter = named(&LETTERS, word)?;
    let numbers = answer.numbers(rest)?;
    let [size, parents, most] = numbers.as_slice() else {
        return None;
    };
    if *most > GREATEST_BLOCK {
        return None;
    }
    answer.show(letter);
    answer.tell(" would have ");
    answer.show(prepared_positions(letter, *size, *parents, *most));
    answer.tell(" positions\n");
    Some(())
}
