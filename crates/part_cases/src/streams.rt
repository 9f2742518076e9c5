//! Cases of streams: what stands after numbers and texts are put, and files are read and written.
ghost use Rattle.std.specs.Prelude.{◌≡◌, false, OnOk};
ghost use Rattle.outside.specs.Folder.{KeepsReading, appended};
ghost use Rattle.outside.specs.Sink.{told_written};
ghost use Rattle.outside.specs.Told.{told_bytes, emptied};

use crate::pieces::Pieces;
use crate::scripted::Scripted;
use case_files::Answer;
use outside::{Batch, FileSink, Folder, Refusal, Sink, read_through};
use std::fmt::Debug;
use text_lines::{put_all, put_i64, put_u64};

const NAME: &str = "old";

/// What a call answers, the bytes that stand then, and how often a call failed.
fn tell_outcome<T: Debug + Drop>(answer: &mut Answer, outcome: T, bytes: &[u8], faults: u64) {
    answer.show(outcome);
    answer.tell(" ");
    answer.quote(bytes);
    answer.tell(" faults ");
    answer.show(faults);
}

fn tell_put(answer: &mut Answer, case: Scripted<'_>) -> Option<()> {
    let mut sink = case.sink(answer);
    let text = str::from_utf8(case.text).ok()?;
    let outcome = if text.starts_with('-') {
        put_i64(&mut sink, text.parse::<i64>().ok()?)
    } else {
        put_u64(&mut sink, text.parse::<u64>().ok()?)
    };
    tell_outcome(answer, outcome, sink.written(), sink.faults());
    Some(())
}

fn tell_read(answer: &mut Answer, case: Scripted<'_>, name: &str) -> Option<()> {
    let mut folder = case.folder(answer);
    answer.note(folder.add_file(NAME, case.text));
    let mut eaten = Vec::new(answer.alloc());
    let outcome = read_through(&mut folder, name, case.number()?, &mut eaten);
    tell_outcome(answer, outcome, eaten.as_slice(), folder.read_faults());
    answer.tell(" ");
    answer.show(folder.faulted());
    Some(())
}

/// Puts a text into the file of this name, which is made or emptied first.
fn write_file<F: Folder>(folder: &mut F, name: &str, text: &[u8]) -> Result<(), Refusal>
    ensures finished { OnOk result ((F.state folder.new).unfinished ≡ false) }
    ensures whole { OnOk result (told_written (F.state folder.new).writing (F.state folder.new).holds
        ≡ appended (told_bytes (emptied ((F.state folder.old).holds name.now))) text.now) }
    ensures reading { OnOk result (KeepsReading (F.state folder.old) (F.state folder.new)) }
{
    folder.start_write(name)?;
    let mut sink = FileSink::new(folder);
    put_all(&mut sink, text)?;
    sink.finish()?;
    Ok(())
}

fn tell_write(answer: &mut Answer, case: Scripted<'_>) -> Option<()> {
    let mut folder = case.folder(answer);
    answer.note(folder.add_file(NAME, b"before"));
    let outcome = write_file(&mut folder, NAME, case.text);
    let stands = folder.bytes(NAME).unwrap_or(b"none");
    tell_outcome(answer, outcome, stands, folder.write_faults());
    answer.tell(" unfinished ");
    answer.show(folder.is_unfinished());
    Some(())
}

/// Puts a text so many times into a batch, and finishes.
fn put_times<S: Sink>(sink: &mut S, text: &[u8], times: u64) -> Result<(), Refusal> {
    let mut batch = Batch::new(sink);
    for _ in 0..times {
        put_all(&mut batch, text)?;
    }
    batch.finish()
}

/// Puts a text into a sink, in large pieces, and finishes.
fn put_batched<S: Sink>(sink: &mut S, text: &[u8]) -> Result<(), Refusal>
    ensures whole { OnOk result ((S.state sink.new).written ≡ appended (S.state sink.old).written text.now) }
    ensures finished { OnOk result ((S.state sink.new).unfinished ≡ false) }
{
    let mut batch = Batch::new(sink);
    put_all(&mut batch, text)?;
    batch.finish()?;
    Ok(())
}

fn tell_batch(answer: &mut Answer, case: Scripted<'_>) -> Option<()> {
    let mut lower = Pieces::new(answer.alloc(), case.sink(answer));
    let outcome = match case.number()? {
        1 => put_batched(&mut lower, case.text),
        times => put_times(&mut lower, case.text, times),
    };
    answer.show(outcome);
    answer.tell(" ");
    answer.show(lower.lengths.as_slice());
    answer.tell(" of ");
    answer.show(lower.sink.written().len());
    answer.tell(" unfinished ");
    answer.show(lower.sink.is_unfinished());
    Some(())
}

/// What comes of a case of streams.
pub(crate) fn tell(answer: &mut Answer, keyword: &str, case: Scripted<'_>) -> Option<()> {
    match keyword {
        "put" => tell_put(answer, case),
        "read" => tell_read(answer, case, NAME),
        "absent" => tell_read(answer, case, "other"),
        "write" => tell_write(answer, case),
        "batch" => tell_batch(answer, case),
        _ => None,
    }
}
