// A list of files in memory.
ghost use Rattle.std.specs.Prelude.{◌≡◌, ℕ, ◌<◌, ◌++◌, List, [], OnOk, OnErr, IfOk, MatchOption, length, Some};
ghost use Rattle.outside.specs.Told.{NoFile, Bytes, grown};
ghost use Rattle.outside.specs.MemoryFile.{told, name_at, IsFirst, IsNewName, Changes};

use crate::memory_file::MemoryFile;
use std::alloc::{AllocError, Global};

// The place of the first file of this name.
pub(crate) fn position(files: &[MemoryFile], name: &str) -> Option<usize>
    ensures { MatchOption result ((told files.now name.now ≡ NoFile) × IsNewName files.now (length files.now) name.now)
        (λ i. IsFirst files.now i name.now) }
{
    for (i, file) in files.iter().enumerate() {
        if file.name.as_str() == name {
            return Some(i);
        }
    }
    None
}

// Makes the file of this name, or gives it these bytes in place of its own, and answers its place.
pub(crate) fn put_file(
    alloc: Global,
    files: &mut Vec<MemoryFile>,
    name: &str,
    bytes: Vec<u8>,
) -> Result<usize, AllocError>
    ensures changes { OnOk result (Changes files.old.items files.new.items name.now (Bytes bytes.items)) }
    ensures first { IfOk result (λ i. IsFirst files.new.items i name.now) }
    ensures refused { OnErr result (files.new.items ≡ files.old.items) }
{
    match position(files.as_slice(), name) {
        Some(i) => {
            files[i].bytes = bytes;
            Ok(i)
        }
        None => {
            let i = files.len();
            let name = String::from_str(alloc, name)?;
            files.push(MemoryFile { name, bytes })?;
            Ok(i)
        }
    }
}

// Appends to the file at this place.
pub(crate) fn append_to_file(
    files: &mut Vec<MemoryFile>,
    i: usize,
    piece: &[u8],
) -> Result<(), AllocError>
    requires { i < length files.old.items }
    ensures changes { OnOk result ((name : List ℕ) → IsFirst files.old.items i name
        → Changes files.old.items files.new.items name (grown (told files.old.items name) piece.now)) }
    ensures refused { OnErr result (told files.new.items ≡ told files.old.items) }
    ensures names { (k : ℕ) → name_at files.new.items k ≡ name_at files.old.items k }
    ensures length { length files.new.items ≡ length files.old.items }
{
    files[i].bytes.extend_from_slice(piece)
}
