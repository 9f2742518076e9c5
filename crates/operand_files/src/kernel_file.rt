// The file of a kernel.
ghost use Rattle.std.specs.Prelude.{IfErr, IfOk};
ghost use Rattle.operand_files.specs.KernelFiles.{AnswersText, IsKernelRefused, ReadsKernel};
ghost use Rattle.operand_files.specs.Reads.{FileStops, OnlyReads};
ghost use Rattle.std.specs.Prelude.{ℕ, List};
ghost use Rattle.outside.specs.Folder.{FolderState};

use crate::fault::FileStop;
use crate::feeding::feed_file;
use kernel_code::Kernel;
use kernel_read::{KernelFault, read_kernel};
use outside::Folder;
use std::alloc::Global;

/// Why no kernel is read from a file. Lines are counted from 1, those of comments too; the count stands still at 2^64 - 1.
#[derive(Clone, Copy, Debug, PartialEq, Eq, Drop)]
pub enum KernelFileFault {
    /// Reading the file failed, or it isn't there.
    ReadFault,
    /// The file has more bytes than may be.
    FileBytes,
    /// A bracket opens in this line while 4,096 are open.
    KernelDepth { line: u64 },
    /// No kernel's text begins with the lines up to this one, which is one above the last where the text ends early.
    BadKernel { line: u64 },
    /// Memory is wanted.
    Memory,
}

/// The fault of a file that isn't fed to its end.
fn fault_of(stop: FileStop) -> KernelFileFault
    ensures { (path : List ℕ) (old new : FolderState) → FileStops path old new stop → IsKernelRefused path old new result }
{
    match stop {
        FileStop::ReadFault => KernelFileFault::ReadFault,
        FileStop::FileBytes => KernelFileFault::FileBytes,
        FileStop::Memory => KernelFileFault::Memory,
    }
}

/// The kernel whose text this is.
fn kernel_of(alloc: Global, text: &[u8]) -> Result<Kernel, KernelFileFault>
    ensures { AnswersText text.now result }
{
    match read_kernel(alloc, text) {
        Ok(kernel) => Ok(kernel),
        Err(KernelFault::KernelDepth { line }) => Err(KernelFileFault::KernelDepth { line }),
        Err(KernelFault::BadKernel { line }) => Err(KernelFileFault::BadKernel { line }),
        Err(KernelFault::Memory(_)) => Err(KernelFileFault::Memory),
    }
}

/// Reads the file of this path to its end, and then the kernel whose text it is, behind any lines in front that begin with `//`.
///
/// A read fault or too many bytes come before a fault of the text, which is that of the first line that has one. Memory may be
/// wanted at any growth.
pub fn read_kernel_file<F: Folder>(
    alloc: Global,
    files: &mut F,
    path: &str,
) -> Result<Kernel, KernelFileFault>
    // All that belongs to writing is as before, every file among it.
    ensures only_reads { OnlyReads (F.state files.old) (F.state files.new) }

    // The file of the path alone was opened, and its whole text is the kernel's.
    ensures kernel { IfOk result (ReadsKernel path.now (F.state files.old) (F.state files.new)) }

    // Why no kernel is read.
    ensures refused { IfErr result (IsKernelRefused path.now (F.state files.old) (F.state files.new)) }
{
    let mut text = Vec::new(alloc);
    match feed_file(files, path, &mut text) {
        Ok(()) => kernel_of(alloc, &text),
        Err(stop) => Err(fault_of(stop)),
    }
}
