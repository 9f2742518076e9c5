// A folder in memory whose calls can be made to fail.
ghost use Rattle.std.specs.Prelude.{◌≡◌, OnOk, OnErr, MatchOption};
ghost use Rattle.std.specs.Option.{option_copied};
ghost use Rattle.outside.specs.Told.{NoFile, Bytes};
ghost use Rattle.outside.specs.Folder.{IsEmpty, IsFresh, KeepsOthers, KeepsAllButFiles};

use crate::count::raised;
use crate::folder::Folder;
use crate::memory_files::MemoryFiles;
use crate::refusal::Refusal;
use crate::script::Script;
use std::alloc::{AllocError, Global};

/// Keeps files by name. Its calls are numbered from 1; those whose numbers it is told fail, but that a
/// `start_read` of a name without a file answers Absent all the same.
#[derive(Drop)]
pub struct MemFolder {
    files: MemoryFiles,
    script: Script,
    read_faults: u64,
    write_faults: u64,
}

impl MemFolder {
    ghost use Rattle.outside.specs.MemFolder.{IsSameButScript};

    /// A folder without files that fails no call and cuts no piece.
    pub fn new(alloc: Global) -> Self
        ensures empty { IsEmpty (⟦<MemFolder as Folder>⟧.state result) }
        ensures fresh { IsFresh (⟦<MemFolder as Folder>⟧.state result) }
    {
        MemFolder {
            files: MemoryFiles::new(alloc),
            script: Script::new(alloc),
            read_faults: 0,
            write_faults: 0,
        }
    }

    /// Puts a file there, in place of one of the same name. Refused, all files are as before.
    pub fn add_file(&mut self, name: &str, bytes: &[u8]) -> Result<(), AllocError>
        ensures added { OnOk result ((⟦<MemFolder as Folder>⟧.state self.new).holds name.now ≡ Bytes bytes.now) }
        ensures others { OnOk result (KeepsOthers name.now
            (⟦<MemFolder as Folder>⟧.state self.old) (⟦<MemFolder as Folder>⟧.state self.new)) }
        ensures refused { OnErr result ((⟦<MemFolder as Folder>⟧.state self.new).holds ≡ (⟦<MemFolder as Folder>⟧.state self.old).holds) }
        ensures stays { KeepsAllButFiles (⟦<MemFolder as Folder>⟧.state self.old) (⟦<MemFolder as Folder>⟧.state self.new) }
    {
        self.files.add(name, bytes)
    }

    /// Makes the call of this number fail, the first being number 1.
    pub fn fail_at(&mut self, call: u64) -> Result<(), AllocError>
        ensures { IsSameButScript self.old self.new }
    {
        self.script.fail_at(call)
    }

    /// Makes reads give and writes take at most so many bytes: these numbers are used in turn, from the first again
    /// after the last. A 0 counts as 1. Numbers given later come after these.
    pub fn cut_into(&mut self, lengths: &[usize]) -> Result<(), AllocError>
        ensures { IsSameButScript self.old self.new }
    {
        self.script.cut_into(lengths)
    }

    /// The bytes of the file of this name, if there is one.
    pub fn bytes(&self, name: &str) -> Option<&[u8]>
        ensures { MatchOption result ((⟦<MemFolder as Folder>⟧.state self.now).holds name.now ≡ NoFile)
            (λ bytes. (⟦<MemFolder as Folder>⟧.state self.now).holds name.now ≡ Bytes bytes.now) }
    {
        self.files.bytes(name)
    }

    /// Whether a `finish_write` is due.
    pub fn is_unfinished(&self) -> bool
        ensures { result ≡ (⟦<MemFolder as Folder>⟧.state self.now).unfinished }
    {
        self.files.is_unfinished()
    }

    /// How often `start_read` or `read` failed.
    pub fn read_faults(&self) -> u64
        ensures { result ≡ (⟦<MemFolder as Folder>⟧.state self.now).read_faults }
    {
        self.read_faults
    }

    /// How often `start_write`, `write` or `finish_write` failed.
    pub fn write_faults(&self) -> u64
        ensures { result ≡ (⟦<MemFolder as Folder>⟧.state self.now).write_faults }
    {
        self.write_faults
    }

    /// How often it wanted memory.
    pub fn wants(&self) -> u64
        ensures { result ≡ (⟦<MemFolder as Folder>⟧.state self.now).wants }
    {
        self.files.wants()
    }

    /// The name that the last fault of reading was about.
    pub fn faulted(&self) -> Option<&str>
        ensures { option_copied result ≡ (⟦<MemFolder as Folder>⟧.state self.now).faulted }
    {
        self.files.faulted()
    }
}

impl Folder for MemFolder {
    ghost state = { λ s. record (⟦<MemoryFiles as Folder>⟧.state s.files) { read_faults = s.read_faults; write_faults = s.write_faults } };

    fn start_read(&mut self, name: &str) -> Result<(), Refusal> {
        if self.script.next_call() && self.files.fail_start(name) {
            self.read_faults = raised(self.read_faults);
            return Err(Refusal::Failed);
        }
        self.files.start_read(name)
    }

    fn read(&mut self, buf: &mut [u8]) -> Result<usize, Refusal> {
        if self.script.next_call() {
            self.files.fail_read();
            self.read_faults = raised(self.read_faults);
            return Err(Refusal::Failed);
        }
        let n = self.script.piece_length(buf.len());
        self.files.read(&mut buf[..n])
    }

    fn start_write(&mut self, name: &str) -> Result<(), Refusal> {
        if self.script.next_call() {
            self.write_faults = raised(self.write_faults);
            return Err(Refusal::Failed);
        }
        self.files.start_write(name)
    }

    fn write(&mut self, piece: &[u8]) -> Result<usize, Refusal> {
        if self.script.next_call() {
            self.write_faults = raised(self.write_faults);
            return Err(Refusal::Failed);
        }
        let n = self.script.piece_length(piece.len());
        self.files.write(&piece[..n])
    }

    fn finish_write(&mut self) -> Result<(), Refusal> {
        if self.script.next_call() {
            self.write_faults = raised(self.write_faults);
            return Err(Refusal::Failed);
        }
        self.files.finish_write()
    }
}
