//! Cases of copies: the objects in memory that never fail, and the real ones, through the same functions, also where one call of the system
//! fails. And one run of each law.
use crate::counted::{Calls, CountedFiles};
use crate::scripted::Scripted;
use case_files::Answer;
use outside::{
    Batch, FileSink, Folder, NeverFails, RealFolder, Refusal, Sink, StdSink, read_through,
};
use std::rt::Files;
use std::{fs, io};
use tns_io::{tensors_have_one_text, written_texts_stand_for_their_tensor};

/// More than the 64 bytes that a short text keeps within itself.
const NAME: &str = "part-cases-of-a-file-whose-name-has-more-than-sixty-four-bytes.txt";
/// More than a case has.
const LONGER: &[u8] = b"7 8 9 10 11 12\n";

/// Puts the text into a file through a batch, and answers how many bytes were kept back before the end.
fn write_text<F: Folder>(folder: &mut F, text: &[u8]) -> Result<usize, Refusal> {
    folder.start_write(NAME)?;
    let mut file = FileSink::new(folder);
    let mut batch = Batch::new(&mut file);
    let _taken = batch.write(text)?;
    let kept = batch.kept().len();
    batch.finish()?;
    Ok(kept)
}

/// Writes a file and reads it back, and gives its text to a sink. No call fails in these cases.
fn tell_copy<F: Folder, S: Sink>(
    answer: &mut Answer,
    folder: &mut F,
    sink: &mut S,
    text: &[u8],
) -> Option<()> {
    let kept = write_text(folder, text).ok()?;
    let mut eaten = Vec::new(answer.alloc());
    let read = read_through(folder, NAME, 100, &mut eaten).ok()?;
    let given = sink.write(eaten.as_slice()).ok()?;
    sink.finish().ok()?;
    answer.tell("kept ");
    answer.show(kept);
    answer.tell(", read ");
    answer.show(read);
    answer.tell(", given ");
    answer.show(given);
    Some(())
}

/// The copy, the file and what the sink was given, and then the file once another is put in its place.
fn tell_copy_in_memory(answer: &mut Answer, text: &[u8]) -> Option<()> {
    let mut folder = NeverFails::new(answer.alloc());
    let mut sink = NeverFails::new(answer.alloc());
    tell_copy(answer, &mut folder, &mut sink, text)?;
    answer.tell(": ");
    answer.quote(folder.bytes(NAME).unwrap_or(b"none"));
    answer.tell(" ");
    answer.quote(sink.written());
    answer.note(folder.add_file(NAME, b"other"));
    answer.tell(" ");
    answer.quote(folder.bytes(NAME).unwrap_or(b"none"));
    Some(())
}

/// Removes the file, and tells what a read answers then.
fn tell_removed<R: Files, F: Folder>(rt: &R, answer: &mut Answer, folder: &mut F) -> Option<()> {
    fs::remove_file(rt, NAME).ok()?;
    answer.tell(", removed ");
    let mut eaten = Vec::new(answer.alloc());
    answer.show(read_through(folder, NAME, 100, &mut eaten));
    Some(())
}

/// The copy over a longer text of that name, whose text is printed, and then what a read answers once the file is removed.
fn tell_real_copy<R: Files + Print + AllocGlobal>(
    rt: &R,
    answer: &mut Answer,
    text: &[u8],
) -> Option<()> {
    let mut folder = RealFolder::new(rt.alloc(), rt);
    let mut sink = StdSink::new(io::writer(rt));
    write_text(&mut folder, LONGER).ok()?;
    tell_copy(answer, &mut folder, &mut sink, text)?;
    tell_removed(rt, answer, &mut folder)
}

/// A file of the system is written, read back and removed, where one call for it fails: what both answer, the bytes that were read, and
/// how many calls there were.
fn tell_counted<R: Files + AllocGlobal>(
    rt: &R,
    answer: &mut Answer,
    case: Scripted<'_>,
) -> Option<()> {
    let calls = Calls::new(case.fails.first().copied()?);
    let files = CountedFiles { rt, calls: &calls };
    let mut folder = RealFolder::new(rt.alloc(), files);
    answer.show(write_text(&mut folder, case.text));
    let mut eaten = Vec::new(answer.alloc());
    let outcome = read_through(&mut folder, NAME, 100, &mut eaten);
    answer.tell(" ");
    answer.show(outcome);
    answer.tell(" ");
    answer.quote(eaten.as_slice());
    answer.tell(" calls ");
    answer.show(calls.made());
    let _removed = fs::remove_file(rt, NAME);
    Some(())
}

/// Each claim is the contract of a call that does nothing.
fn call_laws() {
    tensors_have_one_text();
    written_texts_stand_for_their_tensor();
}

/// What comes of a case of copies.
pub(crate) fn tell<R: Files + Print + AllocGlobal>(
    rt: &R,
    answer: &mut Answer,
    keyword: &str,
    case: Scripted<'_>,
) -> Option<()> {
    match keyword {
        "copy" => tell_copy_in_memory(answer, case.text),
        "copy_real" => tell_real_copy(rt, answer, case.text),
        "copy_counted" => tell_counted(rt, answer, case),
        "laws" => {
            call_laws();
            answer.tell("called");
            Some(())
        }
        _ => None,
    }
}
