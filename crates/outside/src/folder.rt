// Where files are read and written.
ghost use Rattle.std.specs.Prelude.{◌<◌, length, IfOk, IfErr, OnOk, IsSome};
ghost use Rattle.outside.specs.Folder.{FolderState, Opens, RefusesToOpen, Reads, RefusesToRead};
ghost use Rattle.outside.specs.Folder.{StartsFile, WritesTo, FinishesFile, RefusesToWrite};

use crate::refusal::Refusal;

/// Files by name. One file is read at a time, and one is written; both go on side by side.
pub trait Folder {
    /// What contracts see of it.
    ghost state: { Self → FolderState };

    /// Begins to read a file from its front. Absent comes exactly where the folder tells that there is no such file,
    /// but that want of memory may come in its place.
    fn start_read(&mut self, name: &str) -> Result<(), Refusal>
        ensures opened { OnOk result (Opens (state self.old) (state self.new) name.now) }
        ensures refused { IfErr result (RefusesToOpen (state self.old) (state self.new) name.now) };

    /// Puts the next bytes at the buffer's front and answers their number, which is 0 exactly at the file's end.
    /// What the buffer holds after them, or after a refusal, is left open.
    fn read(&mut self, buf: &mut [u8]) -> Result<usize, Refusal>
        requires reading { IsSome (state self.old).reading }
        requires room { 0 < length buf.old }
        ensures read { IfOk result (Reads (state self.old) (state self.new) buf.new) }
        ensures refused { IfErr result (RefusesToRead (state self.old) (state self.new)) };

    /// Makes the file, or empties it. Where the call is refused, the file is as before.
    fn start_write(&mut self, name: &str) -> Result<(), Refusal>
        ensures started { OnOk result (StartsFile (state self.old) (state self.new) name.now) }
        ensures refused { IfErr result (RefusesToWrite (state self.old) (state self.new)) };

    /// Appends the first n bytes of the piece to the file being written, at least one of a piece that isn't empty,
    /// and answers n. A refused call appends nothing.
    fn write(&mut self, piece: &[u8]) -> Result<usize, Refusal>
        requires { IsSome (state self.old).writing }
        ensures written { IfOk result (WritesTo (state self.old) (state self.new) piece.now) }
        ensures refused { IfErr result (RefusesToWrite (state self.old) (state self.new)) };

    /// Hands on what may be kept back of the file being written. The text stays whole, also where the call is refused.
    fn finish_write(&mut self) -> Result<(), Refusal>
        requires { IsSome (state self.old).writing }
        ensures finished { OnOk result (FinishesFile (state self.old) (state self.new)) }
        ensures refused { IfErr result (RefusesToWrite (state self.old) (state self.new)) };
}
