ghost use Rattle.std.specs.Prelude.{◌≡◌, ◌≤◌, ◌<◌, ◌+◌, ◌++◌, length, map, All, OnOk, IfErr};
ghost use Rattle.limits.specs.Limits.{greatest_order};
ghost use Rattle.outside.specs.Sink.{Appends};
ghost use Rattle.text_lines.specs.Puts.{AppendsPart};
ghost use Rattle.format_spec.specs.Formats.{letters_of, modes_of};
ghost use Rattle.format_spec.specs.Words.{letter_byte, format_text};

use crate::format::{Format, FormatLevel};
use crate::modes::text_of;
use level_core::Letter;
use outside::{Refusal, Sink};
use smallvec::SmallVec;
use std::alloc::Global;
use text_lines::put_all;

/// The byte of a kind's letter.
pub fn letter_byte(kind: Letter) -> u8
    ensures { result ≡ letter_byte kind }
{
    match kind {
        Letter::Dense => b'd',
        Letter::Compressed => b's',
        Letter::CompressedGroups => b'u',
        Letter::Singleton => b'q',
        Letter::SingletonGroups => b'c',
        Letter::Hashed => b'h',
    }
}

/// The letters of levels.
#[tactic(auto, unfolding(limits::specs::Limits::greatest_order))]
fn letters_text(alloc: Global, levels: &[FormatLevel]) -> SmallVec<u8, 18>
    requires { length levels.now ≤ greatest_order }
    ensures items { result.items ≡ map letter_byte (letters_of levels.now) }
    ensures capacity { result.capacity ≡ 18 }
{
    let mut text = SmallVec::new(alloc);
    for level in levels {
        text.push_reserved(letter_byte(level.letter));
    }
    text
}

/// The modes of levels.
#[tactic(auto, unfolding(limits::specs::Limits::greatest_order))]
fn modes_in(alloc: Global, levels: &[FormatLevel]) -> SmallVec<usize, 6>
    requires { length levels.now ≤ greatest_order }
    ensures { result.items ≡ modes_of levels.now }
{
    let mut modes = SmallVec::new(alloc);
    for level in levels {
        modes.push_reserved(level.mode);
    }
    modes
}

/// Appends bytes that there is room for.
fn append_bytes(text: &mut SmallVec<u8, 18>, bytes: &[u8])
    requires { length text.old.items + length bytes.now ≤ text.old.capacity }
    ensures { text.new.items ≡ text.old.items ++ bytes.now }
{
    for byte in bytes {
        text.push_reserved(*byte);
    }
}

/// The letters of levels, a colon, and the modes joined by commas.
#[tactic(auto, unfolding(limits::specs::Limits::greatest_order))]
fn text_of_levels(alloc: Global, levels: &[FormatLevel]) -> SmallVec<u8, 18>
    requires short { length levels.now ≤ greatest_order }
    requires digits { All (λ mode. mode < 10) (modes_of levels.now) }
    ensures { result.items ≡ format_text levels.now }
{
    let mut text = letters_text(alloc, levels);
    text.push_reserved(b':');
    let modes = modes_in(alloc, levels);
    let order = text_of(alloc, modes.as_slice());
    append_bytes(&mut text, order.as_slice());
    text
}

impl Format {
    /// Appends the text of the format: its letters, a colon, and its modes joined by commas. After a refusal a part of it
    /// at its front was appended. It takes no memory but what the sink takes.
    pub fn put_format<S: Sink>(&self, sink: &mut S) -> Result<(), Refusal>
        ensures whole { OnOk result (Appends (S.state sink.old) (S.state sink.new) (format_text self.now)) }
        ensures part { IfErr result (AppendsPart (S.state sink.old) (S.state sink.new) (format_text self.now)) }
    {
        let text = text_of_levels(self.allocator(), self.levels());
        put_all(sink, text.as_slice())
    }
}
