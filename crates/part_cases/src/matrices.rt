//! Cases of Matrix Market files, fed to a reader piece by piece over a semiring.
ghost use Rattle.std.specs.Prelude.{◌<◌, IfSome};
ghost use Rattle.mtx_io.specs.Progress.{IsMatrixOrder};

use crate::files::tell_entries;
use crate::scripted::Scripted;
use case_files::Answer;
use mtx_io::{FileFault, MtxReader};
use numbers::Semiring;
use outside::Eater;
use std::alloc::Global;
use tensor_map::Entries;

/// The order that a matrix is read for.
fn order_of(case: Scripted<'_>) -> Option<usize>
    ensures { IfSome result IsMatrixOrder }
{
    match case.number()? {
        1 => Some(1),
        2 => Some(2),
        _ => None,
    }
}

/// What is read of the text in pieces of a length: entries, and the numbers of rows and columns.
fn read_in_pieces<S: Semiring>(
    alloc: Global,
    order: usize,
    text: &[u8],
    length: usize,
) -> Result<(Entries, u64, u64), FileFault>
    requires order { IsMatrixOrder order }
    requires length { 0 < length }
{
    let mut reader = match MtxReader::<S>::new(alloc, order) {
        Ok(reader) => reader,
        Err(error) => return Err(FileFault::Memory(error)),
    };
    for piece in text.chunks(length) {
        if let Err(error) = reader.feed(piece) {
            return Err(FileFault::Memory(error));
        }
    }
    reader.finish()
}

fn tell_read(answer: &mut Answer, read: Result<(Entries, u64, u64), FileFault>) {
    match read {
        Ok((entries, rows, columns)) => {
            answer.show(rows);
            answer.tell(" x ");
            answer.show(columns);
            answer.tell(": ");
            tell_entries(answer, &entries);
        }
        Err(FileFault::Line { line, kind }) => {
            answer.tell("line ");
            answer.show(line);
            answer.tell(": ");
            answer.show(kind);
        }
        Err(FileFault::Memory(error)) => answer.note(Err(error)),
    }
}

/// What is read, which is the same in pieces of one, two and 4,096 bytes.
pub(crate) fn tell_mtx<S: Semiring>(answer: &mut Answer, case: Scripted<'_>) -> Option<()> {
    let order = order_of(case)?;
    let alloc = answer.alloc();
    tell_read(answer, read_in_pieces::<S>(alloc, order, case.text, 4_096));
    for length in 1..3 {
        let mut other = Answer::new(alloc);
        tell_read(
            &mut other,
            read_in_pieces::<S>(alloc, order, case.text, length),
        );
        if other.as_str() != answer.as_str() {
            return None;
        }
    }
    Some(())
}
