// Feeding a file to its reader.
ghost use Rattle.std.specs.Prelude.{OnOk, IfErr};
ghost use Rattle.operand_files.specs.Reads.{OnlyReads, FeedsFile, FileStops};

use crate::fault::FileStop;
use outside::{Eater, Folder, ReadStop, read_through};

/// Feeds the whole file of a path to an eater.
pub(crate) fn feed_file<F: Folder, E: Eater>(
    files: &mut F,
    path: &str,
    eater: &mut E,
) -> Result<(), FileStop>
    ensures only_reads { OnlyReads (F.state files.old) (F.state files.new) }
    ensures whole { OnOk result (FeedsFile path.now (F.state files.old) (F.state files.new) (E.eaten eater.old) (E.eaten eater.new)) }
    ensures stops { IfErr result (FileStops path.now (F.state files.old) (F.state files.new)) }
{
    match read_through(files, path, limits::greatest_bytes_of_file(), eater) {
        Ok(_) => Ok(()),
        Err(ReadStop::ReadFault) => Err(FileStop::ReadFault),
        Err(ReadStop::FileBytes) => Err(FileStop::FileBytes),
        Err(ReadStop::Memory(_)) => Err(FileStop::Memory),
    }
}
