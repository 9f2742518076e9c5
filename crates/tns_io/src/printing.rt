// Writes `.tns` files.
ghost use Rattle.std.specs.Prelude.{◌+◌, ◌<◌, [], ◌∷◌, ◌++◌, All, IfErr, OnOk};
ghost use Rattle.std.specs.Fmt.{decimal, signed_decimal};
ghost use Rattle.limits.specs.Limits.{greatest_position_count};
ghost use Rattle.numbers.specs.Signed.{written_of};
ghost use Rattle.outside.specs.Sink.{Appends};
ghost use Rattle.text_lines.specs.Puts.{AppendsPart, Prints};
ghost use Rattle.tns_io.specs.Text.{AreInRange, coords_text, line_text, entry_text, entries_text};

use numbers::Semiring;
use outside::{Refusal, Sink};
use tensor_map::Entries;
use text_lines::{put_all, put_i64, put_u64};

/// Appends the text of entries: a line for each whose value isn't zero, as they stand. Where they are in increasing order
/// and none has the coordinates of another, that is the text of their tensor. It takes no memory. After a refusal a part
/// of the text at its front was appended.
pub fn put_tns<S: Semiring, K: Sink>(sink: &mut K, entries: &Entries) -> Result<(), Refusal>
    requires { AreInRange entries.now.list }
    ensures whole { OnOk result (Appends (K.state sink.old) (K.state sink.new) (entries_text S.arithmetic S.is_signed entries.now.list)) }
    ensures part { IfErr result
        (AppendsPart (K.state sink.old) (K.state sink.new) (entries_text S.arithmetic S.is_signed entries.now.list)) }
{
    for i in 0..entries.len() {
        let coords = entries.coords(i);
        put_entry::<S, K>(sink, coords.as_slice(), entries.value(i))?;
    }
    Ok(())
}

/// Appends the line of an entry, and nothing where its value is zero.
fn put_entry<S: Semiring, K: Sink>(sink: &mut K, coords: &[u64], value: u64) -> Result<(), Refusal>
    requires { All (λ c. c < greatest_position_count) coords.now }
    ensures { Prints (K.state sink.old) (K.state sink.new)
        (entry_text S.arithmetic S.is_signed (record { coords = coords.now; value = value })) result }
{
    if value == S::zero() {
        Ok(())
    } else {
        put_line::<S, K>(sink, coords, value)
    }
}

/// Appends a line: coordinates, counted from 1, and the value.
fn put_line<S: Semiring, K: Sink>(sink: &mut K, coords: &[u64], value: u64) -> Result<(), Refusal>
    requires { All (λ c. c < greatest_position_count) coords.now }
    ensures { Prints (K.state sink.old) (K.state sink.new) (line_text S.is_signed coords.now value) result }
{
    put_coords(sink, coords)?;
    put_value::<S, K>(sink, value)?;
    put_all(sink, b"\n")
}

/// Appends a value, with its sign where values have one.
fn put_value<S: Semiring, K: Sink>(sink: &mut K, value: u64) -> Result<(), Refusal>
    ensures { Prints (K.state sink.old) (K.state sink.new) (signed_decimal (written_of S.is_signed value)) result }
{
    if S::is_signed() {
        put_i64(sink, numbers::signed(value))
    } else {
        put_u64(sink, value)
    }
}

/// Appends coordinates, each with a blank behind it.
fn put_coords<K: Sink>(sink: &mut K, coords: &[u64]) -> Result<(), Refusal>
    requires { All (λ c. c < greatest_position_count) coords.now }
    ensures { Prints (K.state sink.old) (K.state sink.new) (coords_text coords.now) result }
{
    for coordinate in coords {
        put_coordinate(sink, *coordinate)?;
    }
    Ok(())
}

/// Appends a coordinate, counted from 1, and a blank.
fn put_coordinate<K: Sink>(sink: &mut K, coordinate: u64) -> Result<(), Refusal>
    requires { coordinate < greatest_position_count }
    ensures { Prints (K.state sink.old) (K.state sink.new) (decimal (coordinate + 1) ++ 32 ∷ []) result }
{
    put_u64(sink, coordinate + 1)?;
    put_all(sink, b" ")
}
