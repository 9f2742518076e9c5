// The text of a packed tensor.
ghost use Rattle.std.specs.Prelude.{OnOk, IfErr, ◌++◌, ◌∷◌, [], codes};
ghost use Rattle.std.specs.Fmt.{decimal};
ghost use Rattle.outside.specs.Sink.{Appends};
ghost use Rattle.format_spec.specs.Words.{format_text};
ghost use Rattle.text_lines.specs.Puts.{AppendsPart, Prints};
ghost use Rattle.storage_text.specs.StoreText.{first_line, values_line, text_of, store_text};

use crate::levels::put_levels;
use crate::sequences::put_values;
use numbers::Semiring;
use outside::{Refusal, Sink};
use tensor_storage::Tensor;
use text_lines::{put_all, put_u64};

/// Appends a tensor's number and name.
fn put_title<S: Sink>(sink: &mut S, number: u64, name: &[u8]) -> Result<(), Refusal>
    ensures { Prints (S.state sink.old) (S.state sink.new) (codes "T" ++ (decimal number ++ (codes " = " ++ name.now))) result }
{
    put_all(sink, b"T")?;
    put_u64(sink, number)?;
    put_all(sink, b" = ")?;
    put_all(sink, name)
}

/// Appends the line of a tensor's name and format.
fn put_first_line<S: Sink>(
    sink: &mut S,
    number: u64,
    name: &[u8],
    tensor: &Tensor,
) -> Result<(), Refusal>
    ensures { Prints (S.state sink.old) (S.state sink.new) (text_of (first_line number name.now tensor.now ∷ [])) result }
{
    let format = tensor.whole_format();
    put_title(sink, number, name)?;
    put_all(sink, b":")?;
    format.put_format(sink)?;
    put_all(sink, b"\n")
}

/// Appends the line of a tensor's values.
fn put_values_line<S: Semiring, K: Sink>(sink: &mut K, tensor: &Tensor) -> Result<(), Refusal>
    ensures { Prints (K.state sink.old) (K.state sink.new) (text_of (values_line S.is_signed tensor.now ∷ [])) result }
{
    let values = tensor.values();
    put_all(sink, b"val")?;
    put_values::<S, K>(sink, values)?;
    put_all(sink, b"\n")
}

/// Appends the text of a packed tensor, by its number and name: its format, the arrays of each level, and the values, with their signs
/// where `S` has one. After a refusal a part of it at its front was appended. It takes no memory but what the sink takes.
pub fn put_store_text<S: Semiring, K: Sink>(
    sink: &mut K,
    number: u64,
    name: &[u8],
    tensor: &Tensor,
) -> Result<(), Refusal>
    ensures whole { OnOk result (Appends (K.state sink.old) (K.state sink.new) (store_text S.is_signed number name.now tensor.now)) }
    ensures part { IfErr result (AppendsPart (K.state sink.old) (K.state sink.new) (store_text S.is_signed number name.now tensor.now)) }
{
    let levels = tensor.levels();
    put_first_line(sink, number, name, tensor)?;
    put_levels(sink, levels)?;
    put_values_line::<S, K>(sink, tensor)
}
