//! The names of a statement, and their numbers.
ghost use Rattle.std.specs.Prelude.{◌≡◌};
ghost use Rattle.index_notation.specs.Numbering.{place_of};
ghost use Rattle.bindings.specs.Names.{name_at};
ghost use Rattle.bindings.specs.Outcome.{first_named};

use index_notation::Name;

/// The place of a name in a row, which is the row's length where it doesn't stand there.
pub(crate) fn place(names: &[Name], name: &[u8]) -> usize
    ensures { result ≡ place_of names.now (record { bytes = name.now }) }
{
    for (i, other) in names.iter().enumerate() {
        if other.bytes.as_slice() == name {
            return i;
        }
    }
    names.len()
}

/// The bytes of the name with this number, and none where there is no such name.
pub fn name_at(names: &[Name], number: usize) -> &[u8]
    ensures { result.now ≡ name_at names.now number }
{
    match names.get(number) {
        Some(name) => name.bytes.as_slice(),
        None => b"",
    }
}

/// The first tensor of the name of this one, under whose number words are bound.
pub fn first_named(names: &[Name], tensor: usize) -> usize
    ensures { result ≡ first_named names.now tensor }
{
    place(names, name_at(names, tensor))
}
