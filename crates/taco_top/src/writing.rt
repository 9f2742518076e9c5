//! The writing of a result.
ghost use Rattle.std.specs.Prelude.{◌≡◌, ℕ, List, true};
ghost use Rattle.std.specs.Option.{option_map};
ghost use Rattle.outside.specs.Folder.{FolderState};
ghost use Rattle.command_line.specs.declared.Task.{Task};
ghost use Rattle.bindings.specs.Tables.{path_to};
ghost use Rattle.operand_files.specs.Reads.{OnlyReads};
ghost use Rattle.taco_top.specs.Asked.{writes_result};
ghost use Rattle.taco_top.specs.Ends.{Cause};
ghost use Rattle.taco_top.specs.Prepared.{IsPrepared, end_of};
ghost use Rattle.taco_top.specs.Values.{semiring};

use crate::computing::Computed;
use crate::ending::Done;
use bindings::TensorFile;
use numbers::Semiring;
use outside::{Folder, Sink};
use refusals::Fault;
use result_files::{WriteRefusal, write_result};

/// The path of a file, if there is one.
pub(crate) fn path_of<'a>(file: Option<TensorFile<'a>>) -> Option<&'a str>
    ensures { option_map (λ path. path.now) result ≡ path_to file.entry }
{
    match file {
        Some(file) => Some(file.path),
        None => None,
    }
}

/// Writes the result: to `out`, or into its file.
pub(crate) fn write<'a, S: Semiring, F: Folder, O: Sink>(
    files: &mut F,
    out: &mut O,
    computed: &Computed<'a>,
) -> Result<Done, Fault<'a>>
    requires { (words : List (List ℕ)) × (task : Task) × (before : FolderState)
        × IsPrepared (semiring S.arithmetic S.has_minus S.is_ring S.is_signed S.name) words task before (F.state files.old) computed.now }
    ensures { (words : List (List ℕ)) (task : Task) (before : FolderState) → writes_result task ≡ true
        → OnlyReads before (F.state files.old)
        → IsPrepared (semiring S.arithmetic S.has_minus S.is_ring S.is_signed S.name) words task before (F.state files.old) computed.now
        → Cause (semiring S.arithmetic S.has_minus S.is_ring S.is_signed S.name) words before (F.state files.new) (O.state out.old)
        (O.state out.new) (end_of result) }
{
    let file = computed.file;
    let result = &computed.result;
    match write_result::<S, F, O>(files, out, file, &result.shape, &result.entries) {
        Ok(()) => Ok(Done::Written(result.turns)),
        Err(WriteRefusal::Fault) => Err(Fault::WriteFault(path_of(file))),
        Err(WriteRefusal::Memory(_)) => Err(Fault::Memory),
    }
}
