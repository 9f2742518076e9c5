//! A result written to the output, or into a folder's file.
ghost use Rattle.std.specs.Prelude.{◌≡◌, OnOk, IfErr};
ghost use Rattle.tensor_map.specs.Entries.{value_at};
ghost use Rattle.bindings.specs.Tables.{path_to};
ghost use Rattle.result_files.specs.EntriesText.{MayBeWritten};
ghost use Rattle.result_files.specs.ResultText.{asks_matrix};
ghost use Rattle.result_files.specs.Writes.{FailsToFill, FillsFile, RefusesResult, WritesResult};

use crate::printing::{Text, fill, print_text};
use crate::refusal::WriteRefusal;
use crate::tensor_text::TensorText;
use bindings::TensorFile;
use numbers::Semiring;
use outside::{FileSink, Folder, Sink};
use std::marker::PhantomData;
use tensor_map::{Entries, Shape};

/// Whether a result is written as a matrix.
fn is_matrix(file: Option<TensorFile<'_>>) -> bool
    ensures { result ≡ asks_matrix (path_to file.entry) }
{
    match file {
        Some(file) => file.is_matrix(),
        None => false,
    }
}

/// Writes a text into the file of this path, which is made or emptied first.
fn write_file<F: Folder, T: Text>(files: &mut F, path: &str, text: &T) -> Result<(), WriteRefusal>
    requires { T.may_be_put text.now }
    ensures whole { OnOk result (FillsFile (F.state files.old) (F.state files.new) path.now (T.text text.now)) }
    ensures part { IfErr result (FailsToFill (F.state files.old) (F.state files.new) path.now (T.text text.now)) }
{
    files.start_write(path)?;
    let mut file = FileSink::new(files);
    fill(&mut file, text)?;
    Ok(())
}

/// Writes the text of the entries' tensor: to `out`, which is finished then, or into a file, in the file's format. It takes no
/// memory of its own. The entries are below the shape's ranges and increase, and those of a matrix have order 1 or 2.
///
/// A fault comes only where `out` or, with a file, the folder counted one in writing, and want of memory only where it counted
/// one. A front of the text stands there after a refusal, or the file is as before, where it couldn't be made.
pub fn write_result<S: Semiring, F: Folder, O: Sink>(
    files: &mut F,
    out: &mut O,
    file: Option<TensorFile<'_>>,
    shape: &Shape,
    entries: &Entries,
) -> Result<(), WriteRefusal>
    requires { MayBeWritten (asks_matrix (path_to file)) shape.now entries.now }
    ensures written { OnOk result (WritesResult S.arithmetic S.is_signed (path_to file.entry) shape.now
        (value_at S.arithmetic entries.now.list)
        (F.state files.old) (F.state files.new) (O.state out.old) (O.state out.new)) }
    ensures refused { IfErr result (RefusesResult S.arithmetic S.is_signed (path_to file.entry) shape.now
        (value_at S.arithmetic entries.now.list)
        (F.state files.old) (F.state files.new) (O.state out.old) (O.state out.new)) }
{
    let text = TensorText::<S> {
        is_matrix: is_matrix(file),
        shape,
        entries,
        semiring: PhantomData,
    };
    match file {
        Some(file) => write_file(files, file.path, &text),
        None => print_text(out, &text),
    }
}
