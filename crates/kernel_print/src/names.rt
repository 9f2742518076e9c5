// The names of arrays and variables.
ghost use Rattle.std.specs.Prelude.{◌++◌, codes};
ghost use Rattle.std.specs.Fmt.{decimal};
ghost use Rattle.text_lines.specs.Puts.{Prints};
ghost use Rattle.kernel_print.specs.Text.{array_text};

use kernel_code::Arr;
use outside::{Refusal, Sink};
use text_lines::{put_all, put_u64};

/// Appends a text and a number.
pub(crate) fn put_numbered<S: Sink>(sink: &mut S, before: &[u8], number: u64) -> Result<(), Refusal>
    ensures { Prints (S.state sink.old) (S.state sink.new) (before.now ++ decimal number) result }
{
    put_all(sink, before)?;
    put_u64(sink, number)
}

/// Appends a number between two texts.
pub(crate) fn put_name<S: Sink>(
    sink: &mut S,
    before: &[u8],
    number: u64,
    after: &[u8],
) -> Result<(), Refusal>
    ensures { Prints (S.state sink.old) (S.state sink.new) (before.now ++ (decimal number ++ after.now)) result }
{
    put_all(sink, before)?;
    put_u64(sink, number)?;
    put_all(sink, after)
}

/// Appends the name of an array of a level, but for what tells its kind in front.
fn put_level<S: Sink>(sink: &mut S, tensor: u64, level: u64, kind: &[u8]) -> Result<(), Refusal>
    ensures { Prints (S.state sink.old) (S.state sink.new)
        (codes "T" ++ (decimal tensor ++ (codes "_" ++ (decimal level ++ kind.now)))) result }
{
    put_numbered(sink, b"T", tensor)?;
    put_name(sink, b"_", level, kind)
}

/// Appends the name of a key.
fn put_key<S: Sink>(sink: &mut S, workspace: u64, key: u64) -> Result<(), Refusal>
    ensures { Prints (S.state sink.old) (S.state sink.new)
        (codes "w" ++ (decimal workspace ++ (codes "_key" ++ decimal key))) result }
{
    put_numbered(sink, b"w", workspace)?;
    put_numbered(sink, b"_key", key)
}

/// Appends the name of an array.
pub(crate) fn put_array<S: Sink>(sink: &mut S, array: Arr) -> Result<(), Refusal>
    ensures { Prints (S.state sink.old) (S.state sink.new) (array_text array) result }
{
    match array {
        Arr::Range => put_all(sink, b"range"),
        Arr::Values(tensor) => put_name(sink, b"T", tensor, b"_val"),
        Arr::Dimension(tensor, level) => put_level(sink, tensor, level, b"_dim"),
        Arr::Ends(tensor, level) => put_level(sink, tensor, level, b"_pos"),
        Arr::Coordinates(tensor, level) => put_level(sink, tensor, level, b"_crd"),
        Arr::Width(tensor, level) => put_level(sink, tensor, level, b"_wid"),
        Arr::Key(workspace, key) => put_key(sink, workspace, key),
        Arr::Sums(workspace) => put_name(sink, b"w", workspace, b"_val"),
        Arr::ListCoordinates(list) => put_name(sink, b"g", list, b"_crd"),
        Arr::ListPositions(list) => put_name(sink, b"g", list, b"_pos"),
    }
}
