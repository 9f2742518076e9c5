// What a file that was fed to its reader stands for.
ghost use Rattle.std.specs.Prelude.{◌≡◌};
ghost use Rattle.mtx_io.specs.Matrix.{matrix_of_text};
ghost use Rattle.operand_files.specs.Decoded.{of_entries, of_matrix};
ghost use Rattle.operand_files.specs.Reads.{DecodesTo};
ghost use Rattle.tns_io.specs.Reading.{entries_of_text};

use crate::bounds::{reached_by, sizes_of};
use crate::fault::OperandFault;
use crate::matrix_file::MatrixFile;
use expr_terms::Bound;
use mtx_io::FileFault as MtxFault;
use numbers::Semiring;
use std::alloc::Global;
use tensor_map::Entries;
use tns_io::{FileFault as TnsFault, TnsReader};

/// What a `.tns` file stands for that was fed to its end.
pub(crate) fn decode_entries<'a, S: Semiring>(
    alloc: Global,
    reader: TnsReader<S>,
    path: &'a str,
) -> Result<(Entries, Vec<Bound>), OperandFault<'a>>
    ensures { DecodesTo (of_entries reader.order (entries_of_text S.is_signed reader.order reader.text)) path.now result }
{
    match reader.finish() {
        Ok(entries) => {
            let bounds = reached_by(alloc, &entries)?;
            Ok((entries, bounds))
        }
        Err(TnsFault::Line { line, kind }) => Err(OperandFault::BadFile { path, line, kind }),
        Err(TnsFault::Memory(_)) => Err(OperandFault::Memory),
    }
}

/// What a Matrix Market file stands for that was fed to its end.
pub(crate) fn decode_matrix<'a, S: Semiring>(
    alloc: Global,
    file: MatrixFile<S>,
    path: &'a str,
) -> Result<(Entries, Vec<Bound>), OperandFault<'a>>
    ensures { DecodesTo (of_matrix file.reader.order
        (matrix_of_text S.arithmetic S.has_minus S.is_signed file.reader.order file.reader.text)) path.now result }
{
    let MatrixFile { reader } = file;
    match reader.finish() {
        Ok((entries, rows, columns)) => {
            let bounds = sizes_of(alloc, entries.order(), rows, columns)?;
            Ok((entries, bounds))
        }
        Err(MtxFault::Line { line, kind }) => Err(OperandFault::BadFile { path, line, kind }),
        Err(MtxFault::Memory(_)) => Err(OperandFault::Memory),
    }
}
