// A folder's file as a sink.
ghost use Rattle.std.specs.Prelude.{◌≡◌, IsSome, true};
ghost use Rattle.outside.specs.Sink.{file_written};

use crate::folder::Folder;
use crate::refusal::Refusal;
use crate::sink::Sink;

/// Writes to the file that a folder is writing. It counts the folder's faults of writing, and all else of the folder
/// is as before.
#[derive(Drop)]
pub struct FileSink<'a, F: Folder> {
    files: &'a mut F,
    ghost is_open: { IsSome (F.state files.now).writing },
}

impl<'a, F: Folder> FileSink<'a, F> {
    ghost use Rattle.outside.specs.FileSink.{folder_of, borrow_of};

    /// A sink over the file that is being written.
    pub fn new(files: &'a mut F) -> Self
        requires open { IsSome (F.state files.old).writing }
        requires unfinished { (F.state files.old).unfinished ≡ true }
        ensures borrow { borrow_of result ≡ files.entry.ghost_name }
        ensures folder { folder_of result ≡ files.old }
        ensures state { ⟦<FileSink<'a, F> as Sink>⟧.state result ≡ file_written (F.state files.old) files.entry.ghost_name }
    {
        FileSink { files }
    }
}

impl<'a, F: Folder> Sink for FileSink<'a, F> {
    ghost use Rattle.outside.specs.FileSink.{folder_of, borrow_of};

    ghost state = { λ s. file_written (F.state (folder_of s)) (borrow_of s) };

    fn write(&mut self, piece: &[u8]) -> Result<usize, Refusal> {
        self.files.write(piece)
    }

    fn finish(&mut self) -> Result<(), Refusal> {
        self.files.finish_write()
    }
}
