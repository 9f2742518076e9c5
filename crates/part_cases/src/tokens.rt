//! Cases of texts: lines, tokens and numbers.
use crate::scripted::Scripted;
use case_files::Answer;
use std::fmt::Debug;
use text_lines::{NumFault, cut_line, cut_token, is_blank, read_index, read_whole};

/// The lines of a text, or the tokens of a line.
fn tell_cuts(answer: &mut Answer, text: &[u8], are_lines: bool) {
    let mut rest = text;
    for _ in 0..text.len() {
        let cut = if are_lines {
            cut_line(rest)
        } else {
            cut_token(rest)
        };
        let Some((piece, behind)) = cut else {
            break;
        };
        answer.quote(piece);
        answer.tell(" ");
        rest = behind;
    }
    answer.tell(".");
}

fn tell_blanks(answer: &mut Answer, line: &[u8]) {
    for byte in line {
        answer.show(is_blank(*byte));
        answer.tell(" ");
    }
    answer.tell(".");
}

fn tell_number<N: Debug + Drop>(answer: &mut Answer, number: Result<N, NumFault>) {
    match number {
        Ok(number) => answer.show(number),
        Err(fault) => answer.show(fault),
    }
}

/// What comes of a case of texts.
pub(crate) fn tell(answer: &mut Answer, keyword: &str, case: Scripted<'_>) -> Option<()> {
    let text = case.text;
    match keyword {
        "lines" => tell_cuts(answer, text, true),
        "tokens" => tell_cuts(answer, text, false),
        "blanks" => tell_blanks(answer, text),
        "index" => tell_number(answer, read_index(text, case.number()?)),
        "whole" => tell_number(answer, read_whole(text)),
        _ => return None,
    }
    Some(())
}
