//! Tensors written as Matrix Market text.
ghost use Rattle.std.specs.Prelude.{◌≡◌, ◌<◌, ◌+◌, ◌++◌, ◌∷◌, []};
ghost use Rattle.std.specs.Prelude.{All, slice_index_or, length, filter, codes, OnOk, IfErr};
ghost use Rattle.std.specs.Fmt.{decimal, signed_decimal};
ghost use Rattle.numbers.specs.Signed.{written_of};
ghost use Rattle.outside.specs.Sink.{Appends};
ghost use Rattle.tensor_map.specs.Entries.{Entry, is_nonzero, StrictlyIncreasing};
ghost use Rattle.text_lines.specs.Puts.{AppendsPart, Prints};
ghost use Rattle.mtx_io.specs.Progress.{IsMatrixOrder};
ghost use Rattle.mtx_io.specs.Text.{AreSmall, IsBelow, line_of, columns_of, entries_text, matrix_text};

use numbers::Semiring;
use outside::{Refusal, Sink};
use tensor_map::{Entries, Shape};
use text_lines::{put_all, put_i64, put_u64};

/// Appends a number and a blank.
fn put_spaced<K: Sink>(sink: &mut K, number: u64) -> Result<(), Refusal>
    ensures { Prints (K.state sink.old) (K.state sink.new) (decimal number ++ codes " ") result }
{
    put_u64(sink, number)?;
    put_all(sink, b" ")
}

/// Appends a number and a line feed.
fn put_count<K: Sink>(sink: &mut K, number: u64) -> Result<(), Refusal>
    ensures { Prints (K.state sink.old) (K.state sink.new) (decimal number ++ codes "\n") result }
{
    put_u64(sink, number)?;
    put_all(sink, b"\n")
}

/// Appends a value, with its sign where values have one.
fn put_number<S: Semiring, K: Sink>(sink: &mut K, value: u64) -> Result<(), Refusal>
    ensures { Prints (K.state sink.old) (K.state sink.new) (signed_decimal (written_of S.is_signed value)) result }
{
    if S::is_signed() {
        put_i64(sink, numbers::signed(value))
    } else {
        put_u64(sink, value)
    }
}

/// Appends a value and a line feed.
fn put_value<S: Semiring, K: Sink>(sink: &mut K, value: u64) -> Result<(), Refusal>
    ensures { Prints (K.state sink.old) (K.state sink.new) (signed_decimal (written_of S.is_signed value) ++ codes "\n") result }
{
    put_number::<S, K>(sink, value)?;
    put_all(sink, b"\n")
}

/// Appends the size line.
fn put_size<K: Sink>(sink: &mut K, rows: u64, columns: u64, count: u64) -> Result<(), Refusal>
    ensures { Prints (K.state sink.old) (K.state sink.new) (line_of (decimal rows) (decimal columns) (decimal count)) result }
{
    put_spaced(sink, rows)?;
    put_spaced(sink, columns)?;
    put_count(sink, count)
}

/// Appends an entry's line. Row and column are counted from 1.
fn put_entry<S: Semiring, K: Sink>(
    sink: &mut K,
    row: u64,
    column: u64,
    value: u64,
) -> Result<(), Refusal>
    ensures { Prints (K.state sink.old) (K.state sink.new)
        (line_of (decimal row) (decimal column) (signed_decimal (written_of S.is_signed value))) result }
{
    put_spaced(sink, row)?;
    put_spaced(sink, column)?;
    put_value::<S, K>(sink, value)
}

/// How many of the entries have another value than zero.
fn count_nonzero<S: Semiring>(entries: &Entries) -> u64
    ensures { result ≡ length (filter (is_nonzero S.arithmetic) entries.now.list) }
{
    let mut count = 0;
    for i in 0..entries.len() {
        if entries.value(i) != S::zero() {
            count += 1;
        }
    }
    count
}

/// Appends the line of one of the entries, unless its value is zero.
fn put_if_nonzero<S: Semiring, K: Sink>(
    sink: &mut K,
    entries: &Entries,
    i: usize,
) -> Result<(), Refusal>
    requires index { i < length entries.now.list }
    requires order { IsMatrixOrder entries.now.order }
    requires small { All (λ entry. AreSmall entry.coords) entries.now.list }
    ensures { (d : Entry) → Prints (K.state sink.old) (K.state sink.new)
        (entries_text S.is_signed (filter (is_nonzero S.arithmetic) (slice_index_or entries.now.list i d ∷ []))) result }
{
    let value = entries.value(i);
    if value == S::zero() {
        return Ok(());
    }
    let coords = entries.coords(i);
    let numbers = coords.as_slice();
    match numbers {
        [row, column] => put_entry::<S, K>(sink, *row + 1, *column + 1, value),
        [row, ..] => put_entry::<S, K>(sink, *row + 1, 1, value),
        [] => Ok(()),
    }
}

/// Appends the lines of the entries whose value isn't zero.
fn put_entries<S: Semiring, K: Sink>(sink: &mut K, entries: &Entries) -> Result<(), Refusal>
    requires order { IsMatrixOrder entries.now.order }
    requires small { All (λ entry. AreSmall entry.coords) entries.now.list }
    ensures { Prints (K.state sink.old) (K.state sink.new)
        (entries_text S.is_signed (filter (is_nonzero S.arithmetic) entries.now.list)) result }
{
    for i in 0..entries.len() {
        put_if_nonzero::<S, K>(sink, entries, i)?;
    }
    Ok(())
}

/// How many columns a matrix of these ranges has: one for a tensor of order 1.
fn columns_in(ranges: &[u64]) -> u64
    ensures { result ≡ columns_of ranges.now }
{
    match ranges {
        [_, columns, ..] => *columns,
        _ => 1,
    }
}

/// Appends the text of the tensor.
fn put_matrix<S: Semiring, K: Sink>(
    sink: &mut K,
    shape: &Shape,
    entries: &Entries,
) -> Result<(), Refusal>
    requires order { IsMatrixOrder entries.now.order }
    requires same { length shape.now ≡ entries.now.order }
    requires below { All (λ entry. IsBelow shape.now entry.coords) entries.now.list }
    ensures { Prints (K.state sink.old) (K.state sink.new)
        (matrix_text S.is_signed shape.now (filter (is_nonzero S.arithmetic) entries.now.list))
        result }
{
    let ranges = shape.ranges();
    let count = count_nonzero::<S>(entries);
    put_all(sink, b"%%MatrixMarket matrix coordinate integer general\n")?;
    put_size(sink, ranges[0], columns_in(ranges), count)?;
    put_entries::<S, K>(sink, entries)
}

/// Appends the Matrix Market text of the tensor that the entries stand for, over this shape: its values that aren't zero, as
/// `S` says. A tensor of order 1 is written as a matrix of one column. After a refusal a part of the text at its front was
/// appended. It takes no memory but what the sink takes.
pub fn put_mtx<S: Semiring, K: Sink>(
    sink: &mut K,
    shape: &Shape,
    entries: &Entries,
) -> Result<(), Refusal>
    requires order { IsMatrixOrder entries.now.order }
    requires same { length shape.now ≡ entries.now.order }
    requires below { All (λ entry. IsBelow shape.now entry.coords) entries.now.list }
    requires increasing { StrictlyIncreasing entries.now.list }
    ensures whole { OnOk result
        (Appends (K.state sink.old) (K.state sink.new)
        (matrix_text S.is_signed shape.now (filter (is_nonzero S.arithmetic) entries.now.list))) }
    ensures part { IfErr result
        (AppendsPart (K.state sink.old) (K.state sink.new)
        (matrix_text S.is_signed shape.now (filter (is_nonzero S.arithmetic) entries.now.list))) }
{
    put_matrix::<S, K>(sink, shape, entries)
}
