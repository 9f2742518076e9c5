//! The kernels of reports, given to `exec`.
use crate::case::{CaseFile, Place};
use crate::report::run;
use case_files::Answer;

/// The file that a kernel is given in, and more turns than any case takes.
const KERNEL: &str = "given.kernel";

const TURNS: &str = "9223372036854775807";

/// How many reports were asked for and printed, and for how many of them `exec` of their kernel ends as `run` does.
#[derive(Clone, Copy)]
pub(crate) struct Tally {
    pub(crate) reports: u64,
    pub(crate) same: u64,
}

impl Tally {
    pub(crate) fn new() -> Tally {
        Tally {
            reports: 0,
            same: 0,
        }
    }

    /// Counts a command line over these files that ended with this status, if it is that of a report which was printed.
    pub(crate) fn count(
        &mut self,
        answer: &mut Answer,
        files: &[CaseFile],
        words: &[String],
        status: u8,
    ) -> Option<()> {
        let is_report = match words.get(1) {
            Some(command) => command.as_str() == "report",
            None => false,
        };
        if status == 0 && is_report {
            self.reports = self.reports.saturating_add(1);
            if ends_as_run(answer, files, words)? {
                self.same = self.same.saturating_add(1);
            }
        }
        Some(())
    }

    /// Tells what was counted, if anything was.
    pub(crate) fn tell(&self, answer: &mut Answer) {
        if self.reports > 0 {
            answer.tell("exec of the kernels of ");
            answer.show(self.reports);
            answer.tell(" reports: ");
            answer.show(self.same);
            answer.tell(" as run\n\n");
        }
    }
}

/// Whether the kernel that is printed for the words of a report, given to `exec`, ends as `run` does: with its status, both streams and
/// the files.
fn ends_as_run(answer: &mut Answer, files: &[CaseFile], words: &[String]) -> Option<bool> {
    let command = with_words(answer, &["taco", "kernel"], words.get(2..)?)?;
    let mut printed = Place::new(answer.alloc());
    run(answer, files, command.as_slice(), &mut printed);

    let command = with_words(answer, &["taco", "run"], words.get(2..)?)?;
    let mut own = Place::new(answer.alloc());
    let status = run(answer, files, command.as_slice(), &mut own);

    let command = with_words(
        answer,
        &["taco", "exec", KERNEL, TURNS],
        words.get(behind_over(words)..)?,
    )?;
    let mut given = Place::new(answer.alloc());
    answer.note(given.folder.add_file(KERNEL, printed.out.written()));
    let other = run(answer, files, command.as_slice(), &mut given);

    Some(
        status == other
            && own.out.written() == given.out.written()
            && own.err.written() == given.err.written()
            && hold_the_same(files, &own, &given),
    )
}

/// The number of the first word behind the command and the name of a semiring, which a kernel tells by itself.
fn behind_over(words: &[String]) -> usize {
    match words.get(2) {
        Some(word) if word.as_str() == "--over" => 4,
        Some(word) if word.as_str().starts_with("--over=") => 3,
        _ => 2,
    }
}

/// A command line of these words, and then further ones.
fn with_words(answer: &mut Answer, front: &[&str], behind: &[String]) -> Option<Vec<String>> {
    let mut words = Vec::new(answer.alloc());
    for word in front {
        let word = String::from_str(answer.alloc(), *word);
        let word = answer.made(word)?;
        answer.note(words.push(word));
    }
    for word in behind {
        let word = String::from_str(answer.alloc(), word.as_str());
        let word = answer.made(word)?;
        answer.note(words.push(word));
    }
    Some(words)
}

/// Whether the files of a case are the same afterwards.
fn hold_the_same(files: &[CaseFile], first: &Place, second: &Place) -> bool {
    for file in files {
        let name = file.name.as_str();
        if first.folder.bytes(name) != second.folder.bytes(name) {
            return false;
        }
    }
    true
}
