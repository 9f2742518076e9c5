//! What texts of the program tell, with their kernels and their numbers of turns apart.
use case_files::Answer;

/// Tells a text, with `kernel {..}` or `kernel minplus {..}` in place of a kernel, and `turns ..` in place of numbers of turns that aren't
/// shown.
pub(crate) fn tell_text(answer: &mut Answer, text: &str, shows_turns: bool) {
    let mut is_inside = false;
    for line in text.split_inclusive('\n') {
        if is_inside && line != "}\n" {
            // A line inside a kernel.
            continue;
        }
        is_inside = line.starts_with("kernel ") && line.ends_with("{\n");
        if is_inside {
            answer.tell(line.trim_end());
            answer.tell("..");
            continue;
        }
        match split_turns(line) {
            Some((before, _turns, behind)) if !shows_turns => {
                answer.escape(before.as_bytes());
                answer.tell("turns ..");
                answer.escape(behind.as_bytes());
            }
            _ => answer.escape(line.as_bytes()),
        }
    }
}

/// The kernel of a text.
pub(crate) fn kernel_in(text: &str) -> Option<&str> {
    let (_before, kernel) = text.split_once("kernel ")?;
    let (_semiring, kernel) = kernel.split_once("{\n")?;
    match kernel.split_once("\n}\n") {
        Some((kernel, _behind)) => Some(kernel),
        None => Some(kernel),
    }
}

/// The first numbers of turns of a text.
pub(crate) fn turns_in(text: &str) -> Option<&str> {
    for line in text.split_inclusive('\n') {
        if let Some((_before, turns, _behind)) = split_turns(line) {
            return Some(turns);
        }
    }
    None
}

/// What stands before, in and behind the numbers of turns of a whole line. With a cost behind them they are found only if the turns
/// of merged loops are no more.
fn split_turns(line: &str) -> Option<(&str, &str, &str)> {
    let (before, rest) = line.split_once("turns merge ")?;
    let Some((turns, behind)) = rest.split_once(" cost ") else {
        let turns = rest.strip_suffix('\n')?;
        return are_turns(turns).then_some((before, turns, "\n"));
    };
    let is_within = first_number(turns)? <= first_number(behind)?;
    let behind = rest.strip_prefix(turns)?;
    (is_within && are_turns(turns)).then_some((before, turns, behind))
}

/// Whether these are the five numbers of turns, behind the word `merge`.
fn are_turns(text: &str) -> bool {
    let words = ["", " skip ", " gather ", " drain ", " probe "];
    let mut rest = text;
    for word in &words {
        let Some(behind) = rest.strip_prefix(*word) else {
            return false;
        };
        rest = behind.trim_start_matches(|c: char| c.is_ascii_digit());
        if rest.len() == behind.len() {
            return false;
        }
    }
    rest.is_empty()
}

fn first_number(text: &str) -> Option<u64> {
    text.split(' ').next()?.parse::<u64>().ok()
}
