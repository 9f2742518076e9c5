//! Cases of the values of packed entries, of the entries that the tensor gives back, and of its text.
use crate::tensors::{Parts, coords_of, pack};
use case_files::Answer;
use numbers::{Ring, Semiring, signed};
use outside::MemSink;
use std::fmt::Debug;
use storage_text::put_store_text;
use tensor_map::Entries;
use tensor_storage::{PackRefusal, Tensor};

/// How many coordinate lists there are below the ranges.
fn count_of(ranges: &[u64]) -> Option<u64> {
    let mut count: u64 = 1;
    for range in ranges {
        count = count.checked_mul(*range)?;
    }
    Some(count)
}

/// The coordinate list of this number, of those below the ranges, in increasing order.
fn coords_at(answer: &mut Answer, ranges: &[u64], number: u64) -> Option<Vec<u64>> {
    let mut coords = Vec::new(answer.alloc());
    let mut rest = number;
    for range in ranges.iter().rev() {
        answer.note(coords.push(rest.checked_rem(*range)?));
        rest = rest.checked_div(*range)?;
    }
    coords.reverse();
    Some(coords)
}

/// The value of a tensor at a coordinate list.
fn tell_value(answer: &mut Answer, tensor: &Tensor, coords: &[u64]) -> Option<()> {
    if coords.len() != tensor.order() {
        return None;
    }
    answer.show_all(&[signed(tensor.at::<Ring>(coords))]);
    Some(())
}

/// The values at the coordinate lists that are named.
fn tell_asked_values(answer: &mut Answer, tensor: &Tensor, asked: &str) -> Option<()> {
    for text in asked.split(';') {
        let coords = coords_of(answer, text, tensor.order())?;
        tell_value(answer, tensor, coords.as_slice())?;
    }
    Some(())
}

/// The values at all coordinate lists below the ranges.
fn tell_all_values(answer: &mut Answer, tensor: &Tensor, ranges: &str) -> Option<()> {
    let ranges = answer.numbers(ranges)?;
    for number in 0..count_of(ranges.as_slice())? {
        let coords = coords_at(answer, ranges.as_slice(), number)?;
        tell_value(answer, tensor, coords.as_slice())?;
    }
    Some(())
}

/// Entries as lines of a file, parted by `;`.
fn tell_entries(answer: &mut Answer, entries: &Entries) {
    answer.tell("entries");
    for i in 0..entries.len() {
        answer.tell(if i > 0 { ";" } else { "" });
        let coords = entries.coords(i);
        for coordinate in coords.as_slice() {
            answer.show_all(&[*coordinate as u128 + 1]);
        }
        answer.show_all(&[signed(entries.value(i))]);
    }
    answer.tell("\n");
}

/// The text of a tensor of this number, which is written in pieces.
pub(crate) fn tell_store<S: Semiring>(
    answer: &mut Answer,
    number: u64,
    tensor: &Tensor,
) -> Option<()> {
    let mut sink = MemSink::new(answer.alloc());
    answer.note(sink.cut_into(&[1, 4]));
    put_store_text::<S, MemSink>(&mut sink, number, b"A", tensor).ok()?;
    answer.tell(str::from_utf8(sink.written()).ok()?);
    Some(())
}

/// A level that would have more positions than may be, of which it would have so many.
pub(crate) fn tell_level_limit<T: Debug + Drop>(answer: &mut Answer, level: usize, count: T) {
    answer.tell("size limit: level ");
    answer.show(level);
    answer.tell(" would have ");
    answer.show(count);
    answer.tell(" positions");
}

fn tell_refusal(answer: &mut Answer, refusal: PackRefusal) {
    match refusal {
        PackRefusal::Memory => answer.tell("no memory"),
        PackRefusal::SizeLimit { level, count } => tell_level_limit(answer, level, count),
    }
}

/// What comes of packed entries.
pub(crate) fn tell_values(answer: &mut Answer, parts: Parts<'_>) -> Option<()> {
    let tensor = match pack(answer, parts)? {
        Ok(tensor) => tensor,
        Err(refusal) => {
            tell_refusal(answer, refusal);
            return Some(());
        }
    };
    answer.tell("at");
    match parts.asked {
        Some(asked) => tell_asked_values(answer, &tensor, asked)?,
        None => tell_all_values(answer, &tensor, parts.ranges)?,
    }
    answer.tell("\n");
    let entries = tensor.to_entries::<Ring>(answer.alloc());
    let entries = answer.made(entries)?;
    tell_entries(answer, &entries);
    tell_store::<Ring>(answer, 1, &tensor)
}
