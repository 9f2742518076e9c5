ghost use Rattle.std.specs.Prelude.{OnOk, IfErr};
ghost use Rattle.std.specs.Fmt.{decimal, signed_decimal};
ghost use Rattle.outside.specs.Sink.{Appends};
ghost use Rattle.text_lines.specs.Puts.{AppendsPart};

use itoa::Buffer;
use outside::{Refusal, Sink};

/// Appends all of these bytes. After a refusal a part of them at their front was appended.
pub fn put_all<S: Sink>(sink: &mut S, bytes: &[u8]) -> Result<(), Refusal>
    ensures whole { OnOk result (Appends (S.state sink.old) (S.state sink.new) bytes.now) }
    ensures part { IfErr result (AppendsPart (S.state sink.old) (S.state sink.new) bytes.now) }
{
    let mut rest = bytes;
    while !rest.is_empty() {
        match sink.write(rest) {
            Ok(n) => rest = rest.split_at(n).1,
            Err(refusal) => return Err(refusal),
        }
    }
    Ok(())
}

/// Appends the decimal text of a number. After a refusal a part of it at its front was appended.
pub fn put_u64<S: Sink>(sink: &mut S, number: u64) -> Result<(), Refusal>
    ensures whole { OnOk result (Appends (S.state sink.old) (S.state sink.new) (decimal number)) }
    ensures part { IfErr result (AppendsPart (S.state sink.old) (S.state sink.new) (decimal number)) }
{
    let mut buffer = Buffer::new();
    put_all(sink, buffer.format(number).as_bytes())
}

/// Appends the decimal text of a number that may be no word. After a refusal a part of it at its front was appended.
pub fn put_u128<S: Sink>(sink: &mut S, number: u128) -> Result<(), Refusal>
    ensures whole { OnOk result (Appends (S.state sink.old) (S.state sink.new) (decimal number)) }
    ensures part { IfErr result (AppendsPart (S.state sink.old) (S.state sink.new) (decimal number)) }
{
    let mut buffer = Buffer::new();
    put_all(sink, buffer.format(number).as_bytes())
}

/// Appends the decimal text of a signed number. After a refusal a part of it at its front was appended.
pub fn put_i64<S: Sink>(sink: &mut S, value: i64) -> Result<(), Refusal>
    ensures whole { OnOk result (Appends (S.state sink.old) (S.state sink.new) (signed_decimal value)) }
    ensures part { IfErr result (AppendsPart (S.state sink.old) (S.state sink.new) (signed_decimal value)) }
{
    let mut buffer = Buffer::new();
    put_all(sink, buffer.format(value).as_bytes())
}
