//! Runs of a case, and what is told of how they ended.
use crate::case::{Case, CaseFile, Place, Shown};
use crate::given::Tally;
use crate::telling::{kernel_in, tell_text, turns_in};
use case_files::{Answer, keyword_of};
use outside::{MemFolder, MemSink};
use refusals::{Fault, put_line};

/// Runs a command line over these files, and answers the status.
pub(crate) fn run(
    answer: &mut Answer,
    files: &[CaseFile],
    words: &[String],
    place: &mut Place,
) -> u8 {
    for file in files {
        if file.is_there {
            let (name, bytes) = (file.name.as_str(), file.bytes.as_slice());
            answer.note(place.folder.add_file(name, bytes));
        }
    }
    taco_top::taco(
        answer.alloc(),
        words,
        &mut place.folder,
        &mut place.out,
        &mut place.err,
    )
}

/// The text that a stream holds, or none if its end is inside a character.
fn text_of(stream: &MemSink) -> &str {
    str::from_utf8(stream.written()).unwrap_or("")
}

/// What a stream holds, and whether a finish is due.
fn tell_stream(answer: &mut Answer, name: &str, stream: &MemSink, shown: Shown) {
    let text = text_of(stream);
    answer.tell(name);
    answer.tell(" \"");
    if shown == Shown::All || text.is_empty() {
        answer.escape(stream.written());
    } else {
        tell_text(answer, text, shown == Shown::Turns);
    }
    answer.tell(if stream.is_unfinished() {
        "\", unfinished\n"
    } else {
        "\"\n"
    });
}

/// The status, and both streams.
fn tell_streams(answer: &mut Answer, status: u8, place: &Place, shown: Shown) {
    answer.tell("status ");
    answer.show(status);
    answer.tell("\n");
    tell_stream(answer, "out", &place.out, shown);
    tell_stream(answer, "err", &place.err, shown);
}

/// What stands in a file's place afterwards.
fn tell_file(answer: &mut Answer, file: &CaseFile, folder: &MemFolder) {
    let after = folder.bytes(file.name.as_str());
    answer.tell(if after.is_some() { "file " } else { "absent " });
    answer.tell(file.name.as_str());
    if let Some(bytes) = after {
        answer.tell(" ");
        if file.is_there && bytes == file.bytes.as_slice() {
            answer.tell("as before");
        } else {
            answer.quote(bytes);
        }
    }
    answer.tell("\n");
}

/// The words of a case with another command in place of its own, and with further words behind.
fn further_words<'a>(answer: &mut Answer, own: &'a str, further: &'a str) -> Option<Vec<String>> {
    let (command, further) = keyword_of(further);
    let mut line = Answer::new(answer.alloc());
    for part in &["taco ", command, " ", own, " ", further] {
        line.tell(*part);
    }
    answer.words(line.as_str())
}

/// Tells whether two texts are the same, where both are there.
fn tell_compared(
    answer: &mut Answer,
    name: &str,
    texts: (Option<&str>, Option<&str>),
    other: &str,
) {
    if let (Some(first), Some(second)) = texts {
        answer.tell(if first == second { ", same " } else { other });
        answer.tell(name);
    }
}

/// Runs another command line over the files of a case, with no fault, and tells how it ended: another command with the case's words, and
/// further ones behind them; or, to be compared with the case, another command, or with words of its own these alone.
fn tell_further(answer: &mut Answer, case: &Case, line: &str, tally: &mut Tally) -> Option<()> {
    let (keyword, further) = keyword_of(line);
    let (command, further_own) = keyword_of(further);
    let (_taco, own) = keyword_of(case.line.as_str());
    let (_command, own) = keyword_of(own);
    let has_own = keyword == "beside" && !further_own.is_empty();
    let words = further_words(answer, if has_own { "" } else { own }, further)?;
    let mut place = Place::new(answer.alloc());
    let status = run(answer, case.files.as_slice(), words.as_slice(), &mut place);
    tally.count(answer, case.files.as_slice(), words.as_slice(), status)?;
    if keyword == "again" {
        answer.tell(line);
        answer.tell("\n");
        tell_streams(answer, status, &place, case.shown);
        return Some(());
    }
    answer.tell("beside ");
    answer.tell(command);
    answer.tell(": status ");
    answer.show(status);
    let (own, out) = (text_of(&case.place.out), text_of(&place.out));
    tell_compared(
        answer,
        "kernel",
        (kernel_in(own), kernel_in(out)),
        ", another ",
    );
    let own = turns_in(own).or(turns_in(text_of(&case.place.err)));
    let other = turns_in(out).or(turns_in(text_of(&place.err)));
    tell_compared(answer, "turns", (own, other), ", other ");
    answer.tell("\n");
    Some(())
}

/// The status and the line of a refusal that no run in memory ends with.
fn tell_refused(answer: &mut Answer, text: &str) -> Option<()> {
    let fault = match keyword_of(text) {
        ("bytes", path) => Fault::FileBytes(path),
        ("pairs", count) => Fault::WorkspaceLimit(count.parse::<u128>().ok()?),
        _ => return None,
    };
    let mut err = MemSink::new(answer.alloc());
    answer.note(put_line(&mut err, &fault));
    answer.tell("refused ");
    answer.tell(text);
    answer.tell("\nstatus ");
    answer.show(fault.status());
    answer.tell("\nerr ");
    answer.quote(err.written());
    answer.tell("\n");
    Some(())
}

/// Tells how a case ended: its status and streams, each of its files as it is afterwards, whether a finish of the folder's writing is
/// due, and what its further lines ask for.
fn tell_ended(answer: &mut Answer, case: &Case, status: u8, tally: &mut Tally) -> Option<()> {
    tell_streams(answer, status, &case.place, case.shown);
    for file in &case.files {
        tell_file(answer, file, &case.place.folder);
    }
    if case.place.folder.is_unfinished() {
        answer.tell("folder unfinished\n");
    }
    for line in case.further.as_str().lines() {
        match line.strip_prefix("refused ") {
            Some(text) => tell_refused(answer, text)?,
            None => tell_further(answer, case, line, tally)?,
        }
    }
    answer.tell("\n");
    Some(())
}

/// Runs the case, and tells how it ended.
pub(crate) fn tell_case(answer: &mut Answer, case: &mut Case, tally: &mut Tally) -> Option<()> {
    let status = run(
        answer,
        case.files.as_slice(),
        case.words.as_slice(),
        &mut case.place,
    );
    tally.count(answer, case.files.as_slice(), case.words.as_slice(), status)?;
    tell_ended(answer, case, status, tally)
}
