// Rows of names, each name once.
ghost use Rattle.std.specs.Prelude.{◌≡◌, OnOk};
ghost use Rattle.notation_grammar.specs.Grammar.{is_sum as is_sum_name};
ghost use Rattle.index_notation.specs.Numbering.{place_of};
ghost use Rattle.notation_reader.specs.Added.{with_name};

use index_notation::{Name, copy_name};
use std::alloc::{AllocError, Global};
use trees::Items;

/// Whether a name is `sum`, with which nested sums begin.
pub fn is_sum(name: &Name) -> bool
    ensures { result ≡ is_sum_name name.now }
{
    name.bytes.as_slice() == b"sum".as_slice()
}

/// The place of a name in a row, which is the row's length where it doesn't stand there.
pub fn place(names: &[Name], name: &Name) -> usize
    ensures { result ≡ place_of names.now name.now }
{
    for (i, other) in names.iter().enumerate() {
        if other.bytes.as_slice() == name.bytes.as_slice() {
            return i;
        }
    }
    names.len()
}

/// Puts a name at the end of a row where it doesn't stand yet.
pub fn add_name(alloc: Global, names: &mut Items<Name>, name: &Name) -> Result<(), AllocError>
    ensures { OnOk result (names.new ≡ with_name names.old name.now) }
{
    if place(names.as_slice(), name) == names.len() {
        names.push(copy_name(alloc, name)?)?;
    }
    Ok(())
}
