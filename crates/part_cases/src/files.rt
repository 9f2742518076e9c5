//! Cases of files, fed to a reader piece by piece over a semiring, and of written ones.
ghost use Rattle.std.specs.Prelude.{◌<◌, ◌≤◌, IfOk, IfSome, List};
ghost use Rattle.limits.specs.Limits.{greatest_order};
ghost use Rattle.tensor_map.specs.Entries.{Entry, SameListed};
ghost use Rattle.tns_io.specs.Text.{AreInRange};

use crate::matrices::tell_mtx;
use crate::scripted::Scripted;
use case_files::Answer;
use limits::greatest_order_of_tensor;
use numbers::{Ring, Semiring};
use outside::{Eater, MemSink};
use semirings::{Bits, MinPlus};
use std::alloc::Global;
use tensor_map::Entries;
use tns_io::{FileFault, TnsReader, put_tns};

/// The text, behind a comment of as many bytes as the head's second number says.
fn file_text(answer: &mut Answer, case: Scripted<'_>) -> Vec<u8> {
    let mut text = Vec::new(answer.alloc());
    if let Some(length) = case.numbers.get(1) {
        for _ in 0..*length {
            answer.note(text.push(b'#'));
        }
        answer.note(text.push(b'\n'));
    }
    answer.note(text.extend_from_slice(case.text));
    text
}

fn order_of(case: Scripted<'_>) -> Option<usize>
    ensures { IfSome result (λ order. order ≤ greatest_order) }
{
    let order = case.number()?;
    if order > greatest_order_of_tensor() {
        return None;
    }
    Some(order as usize)
}

/// What is read of the text in pieces of a length.
fn read_in_pieces<S: Semiring>(
    alloc: Global,
    order: usize,
    text: &[u8],
    length: usize,
) -> Result<Entries, FileFault>
    requires order { order ≤ greatest_order }
    requires length { 0 < length }
    ensures { IfOk result (λ entries. (others : List Entry) → SameListed entries.list others → AreInRange others) }
{
    let mut reader = match TnsReader::<S>::new(alloc, order) {
        Ok(reader) => reader,
        Err(error) => return Err(FileFault::Memory(error)),
    };
    for piece in text.chunks(length) {
        if let Err(error) = reader.feed(piece) {
            return Err(FileFault::Memory(error));
        }
    }
    reader.finish()
}

/// Each entry with its coordinates, counted from 0, and its value.
pub(crate) fn tell_entries(answer: &mut Answer, entries: &Entries) {
    for i in 0..entries.len() {
        answer.show(entries.coords(i).as_slice());
        answer.tell(" ");
        answer.show(entries.value(i));
        answer.tell(" ");
    }
    answer.tell(".");
}

fn tell_read(answer: &mut Answer, read: Result<Entries, FileFault>) {
    match read {
        Ok(entries) => tell_entries(answer, &entries),
        Err(FileFault::Line { line, kind }) => {
            answer.tell("line ");
            answer.show(line);
            answer.tell(": ");
            answer.show(kind);
        }
        Err(FileFault::Memory(error)) => answer.note(Err(error)),
    }
}

/// What is read, which is the same in pieces of one, two and 4,096 bytes.
fn tell_tns<S: Semiring>(answer: &mut Answer, case: Scripted<'_>) -> Option<()> {
    let order = order_of(case)?;
    let text = file_text(answer, case);
    let alloc = answer.alloc();
    tell_read(
        answer,
        read_in_pieces::<S>(alloc, order, text.as_slice(), 4_096),
    );
    for length in 1..3 {
        let mut other = Answer::new(alloc);
        tell_read(
            &mut other,
            read_in_pieces::<S>(alloc, order, text.as_slice(), length),
        );
        if other.as_str() != answer.as_str() {
            return None;
        }
    }
    Some(())
}

/// The text that is written of the entries that are read. They are read over the ring, by which a text tells any word.
fn tell_written<S: Semiring>(answer: &mut Answer, case: Scripted<'_>) -> Option<()> {
    let order = order_of(case)?;
    let Ok(mut entries) = read_in_pieces::<Ring>(answer.alloc(), order, case.text, 4_096) else {
        return None;
    };
    let Ok(()) = entries.sort_sum::<S>() else {
        return None;
    };
    let mut sink = MemSink::new(answer.alloc());
    answer.show(put_tns::<S, MemSink>(&mut sink, &entries));
    answer.tell(" ");
    answer.quote(sink.written());
    Some(())
}

/// What comes of a case over a semiring.
fn tell_over<S: Semiring>(answer: &mut Answer, keyword: &str, case: Scripted<'_>) -> Option<()> {
    match keyword {
        "tns" => tell_tns::<S>(answer, case),
        "put_tns" => tell_written::<S>(answer, case),
        _ => tell_mtx::<S>(answer, case),
    }
}

/// What comes of a case of files.
pub(crate) fn tell(answer: &mut Answer, keyword: &str, case: Scripted<'_>) -> Option<()> {
    match case.over {
        "ring" => tell_over::<Ring>(answer, keyword, case),
        "minplus" => tell_over::<MinPlus>(answer, keyword, case),
        "bits" => tell_over::<Bits>(answer, keyword, case),
        _ => None,
    }
}
