//! A tensor as a line of a case file says it, and its entries packed.
ghost use Rattle.std.specs.Prelude.{◌≡◌, ◌<◌, ◌≤◌, ℕ, length, slice_index, true, IfOk, IfSome};
ghost use Rattle.limits.specs.Limits.{greatest_order};
ghost use Rattle.tensor_storage.specs.Arranged.{AreInside};
ghost use Rattle.storage_arrays.specs.Arrays.{AreDone};

use case_files::Answer;
use format_spec::{Format, parse_format};
use limits::greatest_order_of_tensor;
use numbers::Ring;
use std::alloc::Global;
use tensor_map::{Entries, Shape};
use tensor_storage::{PackRefusal, Tensor};

/// The parts of a line.
#[derive(Clone, Copy)]
pub(crate) struct Parts<'a> {
    /// `LETTERS` or `LETTERS:ORDER`.
    format: &'a str,
    pub(crate) ranges: &'a str,
    entries: &'a str,
    /// The coordinates at which the value is asked, if some are named.
    pub(crate) asked: Option<&'a str>,
}

impl<'a> Parts<'a> {
    /// The parts of a line `FORMAT | RANGES | ENTRIES`, which may name coordinates behind a further `|`.
    pub(crate) fn of(line: &'a str) -> Option<Parts<'a>> {
        let mut parts = line.split('|');
        Some(Parts {
            format: parts.next()?.trim(),
            ranges: parts.next()?,
            entries: parts.next()?,
            asked: parts.next(),
        })
    }
}

/// The format of a word `LETTERS` or `LETTERS:ORDER`.
pub(crate) fn format_of(alloc: Global, word: &str, order: usize) -> Option<Format> {
    if order as u64 > greatest_order_of_tensor() {
        return None;
    }
    let (letters, modes) = match word.split_once(':') {
        Some((letters, modes)) => (letters, Some(modes)),
        None => (word, None),
    };
    parse_format(alloc, letters, modes, order).ok()
}

/// The coordinates, counted from 0, that words say counted from 1.
pub(crate) fn coords_of(answer: &mut Answer, text: &str, order: usize) -> Option<Vec<u64>>
    ensures { IfSome result (λ coords. length coords.items ≡ order) }
{
    let mut coords = Vec::new(answer.alloc());
    for word in text.split_whitespace().take(order) {
        let number = word.parse::<u64>().ok()?;
        answer.note(coords.push(number.checked_sub(1)?));
    }
    if coords.len() != order {
        return None;
    }
    Some(coords)
}

/// The entries of lines, as they stand: coordinates, and a value.
fn entries_of(answer: &mut Answer, text: &str, order: usize) -> Option<Entries> {
    if order as u64 > greatest_order_of_tensor() {
        return None;
    }
    let entries = Entries::new(answer.alloc(), order);
    let mut entries = answer.made(entries)?;
    for line in text.split(';') {
        if let Some(value) = line.split_whitespace().nth(order) {
            let value = value.parse::<i64>().ok()?;
            let coords = coords_of(answer, line, order)?;
            answer.note(entries.push(coords.as_slice(), value.cast_unsigned()));
        }
    }
    Some(entries)
}

/// Whether each coordinate is below the range of its mode.
fn is_inside(ranges: &[u64], coords: &[u64]) -> bool
    requires { length coords.now ≡ length ranges.now }
    ensures { result ≡ true → (mode : ℕ) → mode < length ranges.now
        → slice_index coords.now mode < slice_index ranges.now mode }
{
    for mode in 0..ranges.len() {
        if coords[mode] >= ranges[mode] {
            return false;
        }
    }
    true
}

/// Whether the coordinates of all entries are below the ranges.
fn are_inside(ranges: &[u64], entries: &Entries) -> bool
    requires { entries.now.order ≡ length ranges.now }
    ensures { result ≡ true → AreInside ranges.now entries.now.list }
{
    for i in 0..entries.len() {
        let coords = entries.coords(i);
        if !is_inside(ranges, coords.as_slice()) {
            return false;
        }
    }
    true
}

/// What comes of packing entries, those with equal coordinates added. None where they fit neither the format nor the ranges.
fn packed(
    alloc: Global,
    format: Format,
    shape: &Shape,
    mut entries: Entries,
) -> Option<Result<Tensor, PackRefusal>>
    ensures { IfSome result (λ packed. IfOk packed (λ tensor. AreDone 1 tensor.levels)) }
{
    let Ok(()) = entries.sort_sum::<Ring>() else {
        return None;
    };
    if shape.order() != format.order() || entries.order() != format.order() {
        return None;
    }
    if !are_inside(shape.ranges(), &entries) {
        return None;
    }
    Some(Tensor::pack::<Ring>(alloc, format, shape, &entries))
}

/// What comes of packing the entries of a line, those with equal coordinates added. None where the line says no tensor, or for want of
/// memory before they are packed.
pub(crate) fn pack(answer: &mut Answer, parts: Parts<'_>) -> Option<Result<Tensor, PackRefusal>>
    ensures { IfSome result (λ packed. IfOk packed (λ tensor. AreDone 1 tensor.levels)) }
{
    let ranges = answer.numbers(parts.ranges)?;
    let shape = Shape::new(answer.alloc(), ranges.as_slice())?;
    let format = format_of(answer.alloc(), parts.format, ranges.len())?;
    let entries = entries_of(answer, parts.entries, ranges.len())?;
    packed(answer.alloc(), format, &shape, entries)
}
