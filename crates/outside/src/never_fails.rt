// A folder and a sink in memory that never fail.
ghost use Rattle.std.specs.Prelude.{◌≡◌, [], Some, true, OnOk, OnErr, MatchOption};
ghost use Rattle.outside.specs.Told.{NoFile, Bytes};
ghost use Rattle.outside.specs.Folder.{IsEmpty, IsFresh, KeepsOthers, KeepsAllButFiles};

use crate::folder::Folder;
use crate::memory_files::MemoryFiles;
use crate::memory_text::MemoryText;
use crate::refusal::Refusal;
use crate::sink::Sink;
use std::alloc::{AllocError, Global};

/// A folder, and beside it a sink, that keep all that they are given. Their counts of faults are always 0, so that
/// no call of theirs answers Failed.
#[derive(Drop)]
pub struct NeverFails {
    files: MemoryFiles,
    text: MemoryText,
}

impl NeverFails {
    /// A folder without files, and an empty sink.
    pub fn new(alloc: Global) -> Self
        ensures empty { IsEmpty (⟦<NeverFails as Folder>⟧.state result) }
        ensures fresh { IsFresh (⟦<NeverFails as Folder>⟧.state result) }
        ensures written { (⟦<NeverFails as Sink>⟧.state result).written ≡ Some [] }
        ensures unfinished { (⟦<NeverFails as Sink>⟧.state result).unfinished ≡ true }
    {
        NeverFails {
            files: MemoryFiles::new(alloc),
            text: MemoryText::new(alloc),
        }
    }

    /// Puts a file there, in place of one of the same name. Refused, all files are as before.
    pub fn add_file(&mut self, name: &str, bytes: &[u8]) -> Result<(), AllocError>
        ensures added { OnOk result ((⟦<NeverFails as Folder>⟧.state self.new).holds name.now ≡ Bytes bytes.now) }
        ensures others { OnOk result (KeepsOthers name.now
            (⟦<NeverFails as Folder>⟧.state self.old) (⟦<NeverFails as Folder>⟧.state self.new)) }
        ensures refused { OnErr result ((⟦<NeverFails as Folder>⟧.state self.new).holds ≡ (⟦<NeverFails as Folder>⟧.state self.old).holds) }
        ensures stays { KeepsAllButFiles (⟦<NeverFails as Folder>⟧.state self.old) (⟦<NeverFails as Folder>⟧.state self.new) }
        ensures sink { ⟦<NeverFails as Sink>⟧.state self.new ≡ ⟦<NeverFails as Sink>⟧.state self.old }
    {
        self.files.add(name, bytes)
    }

    /// The bytes of the file of this name, if there is one.
    pub fn bytes(&self, name: &str) -> Option<&[u8]>
        ensures { MatchOption result ((⟦<NeverFails as Folder>⟧.state self.now).holds name.now ≡ NoFile)
            (λ bytes. (⟦<NeverFails as Folder>⟧.state self.now).holds name.now ≡ Bytes bytes.now) }
    {
        self.files.bytes(name)
    }

    /// The bytes that the sink was given.
    pub fn written(&self) -> &[u8]
        ensures { (⟦<NeverFails as Sink>⟧.state self.now).written ≡ Some result.now }
    {
        self.text.bytes()
    }
}

impl Folder for NeverFails {
    ghost state = { λ s. ⟦<MemoryFiles as Folder>⟧.state s.files };

    fn start_read(&mut self, name: &str) -> Result<(), Refusal> {
        self.files.start_read(name)
    }

    fn read(&mut self, buf: &mut [u8]) -> Result<usize, Refusal> {
        self.files.read(buf)
    }

    fn start_write(&mut self, name: &str) -> Result<(), Refusal> {
        self.files.start_write(name)
    }

    fn write(&mut self, piece: &[u8]) -> Result<usize, Refusal> {
        self.files.write(piece)
    }

    fn finish_write(&mut self) -> Result<(), Refusal> {
        self.files.finish_write()
    }
}

impl Sink for NeverFails {
    ghost state = { λ s. ⟦<MemoryText as Sink>⟧.state s.text };

    fn write(&mut self, piece: &[u8]) -> Result<usize, Refusal> {
        self.text.write(piece)
    }

    fn finish(&mut self) -> Result<(), Refusal> {
        self.text.finish()
    }
}
