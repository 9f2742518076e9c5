// A folder in memory that never fails.
ghost use Rattle.std.specs.Prelude.{◌≡◌, ℕ, ◌<◌, ◌≤◌, false, List, [], length, min, take, drop};
ghost use Rattle.std.specs.Prelude.{None, Some, OnOk, OnErr, MatchOption, MatchBool};
ghost use Rattle.std.specs.Option.{option_copied};
ghost use Rattle.outside.specs.Told.{NoFile, Bytes};
ghost use Rattle.outside.specs.MemoryFile.{told, name_of, rest_of, IsFirstOfName, Changes};

use crate::count::raised;
use crate::folder::Folder;
use crate::given::Given;
use crate::memory_file::MemoryFile;
use crate::memory_list::{append_to_file, position, put_file};
use crate::refusal::Refusal;
use std::alloc::{AllocError, Global};

#[derive(Drop)]
pub struct MemoryFiles {
    alloc: Global,
    files: Vec<MemoryFile>,
    // The places of the file being read, of the one being written, and of the one that the last fault was about.
    reading: Option<usize>,
    writing: Option<usize>,
    faulted: Option<usize>,
    // A copy of the file being read, and how much of it was read.
    text: Vec<u8>,
    taken: usize,
    // What reads gave of each file that was opened.
    given: Given,
    is_unfinished: bool,
    wants: u64,
    ghost taken_within: { taken ≤ length text.items },
    ghost reading_within: { (i : ℕ) → reading ≡ Some i → i < length files.items },
    ghost faulted_within: { (i : ℕ) → faulted ≡ Some i → i < length files.items },
    ghost writing_first: { (i : ℕ) → writing ≡ Some i → IsFirstOfName files.items i },
}

impl MemoryFiles {
    ghost use Rattle.outside.specs.MemoryFiles.{KeepsPlaces, FailsToStart, FailsToRead};

    pub(crate) fn new(alloc: Global) -> Self
        ensures files { result.files.items ≡ [] }
        ensures reading { result.reading ≡ None }
        ensures writing { result.writing ≡ None }
        ensures faulted { result.faulted ≡ None }
        ensures given { result.given.files ≡ [] }
        ensures finished { result.is_unfinished ≡ false }
        ensures wants { result.wants ≡ 0 }
    {
        MemoryFiles {
            alloc,
            files: Vec::new(alloc),
            reading: None,
            writing: None,
            faulted: None,
            text: Vec::new(alloc),
            taken: 0,
            given: Given::new(),
            is_unfinished: false,
            wants: 0,
        }
    }

    // Puts a file there, in place of one of the same name.
    pub(crate) fn add(&mut self, name: &str, bytes: &[u8]) -> Result<(), AllocError>
        ensures added { OnOk result (Changes self.old.files.items self.new.files.items name.now (Bytes bytes.now)) }
        ensures refused { OnErr result (self.new.files.items ≡ self.old.files.items) }
        ensures keeps { KeepsPlaces self.old self.new }
    {
        let bytes = Vec::from_slice(self.alloc, bytes)?;
        put_file(self.alloc, &mut self.files, name, bytes)?;
        Ok(())
    }

    // The bytes of the file of this name.
    pub(crate) fn bytes(&self, name: &str) -> Option<&[u8]>
        ensures { MatchOption result (told self.now.files.items name.now ≡ NoFile)
            (λ bytes. told self.now.files.items name.now ≡ Bytes bytes.now) }
    {
        match position(self.files.as_slice(), name) {
            Some(i) => Some(self.files[i].bytes.as_slice()),
            None => None,
        }
    }

    pub(crate) fn is_unfinished(&self) -> bool
        ensures { result ≡ self.now.is_unfinished }
    {
        self.is_unfinished
    }

    pub(crate) fn wants(&self) -> u64
        ensures { result ≡ self.now.wants }
    {
        self.wants
    }

    // The name that the last fault was about.
    pub(crate) fn faulted(&self) -> Option<&str>
        ensures { option_copied result ≡ name_of self.now.files.items self.now.faulted }
    {
        match self.faulted {
            Some(i) => Some(self.files[i].name.as_str()),
            None => None,
        }
    }

    // A fault of `start_read`, if there is such a file: it is the last one that a fault was about, and none is read.
    pub(crate) fn fail_start(&mut self, name: &str) -> bool
        ensures { MatchBool result (FailsToStart self.old self.new name.now)
            ((told self.old.files.items name.now ≡ NoFile) × (self.new ≡ self.old)) }
    {
        let Some(i) = position(self.files.as_slice(), name) else {
            return false
        };
        self.faulted = Some(i);
        self.reading = None;
        self.taken = 0;
        true
    }

    // A fault of `read`: the file being read is the last one that a fault was about.
    pub(crate) fn fail_read(&mut self)
        ensures { FailsToRead self.old self.new }
    {
        self.faulted = self.reading;
    }
}

// Copies as many bytes as there are and as the buffer has room for, and answers their number.
fn copy_front(bytes: &[u8], buf: &mut [u8]) -> usize
    ensures count { result ≡ min (length bytes.now) (length buf.old) }
    ensures copied { take result buf.new ≡ take result bytes.now }
{
    let n = bytes.len().min(buf.len());
    buf[..n].copy_from_slice(&bytes[..n]);
    n
}

impl Folder for MemoryFiles {
    ghost state = { λ s. record {
      holds = told s.files.items;
      reading = name_of s.files.items s.reading;
      rest = rest_of s.reading (drop s.taken s.text.items);
      taken = s.taken;
      given = s.given.files;
      writing = name_of s.files.items s.writing;
      unfinished = s.is_unfinished;
      read_faults = 0;
      write_faults = 0;
      wants = s.wants;
      faulted = name_of s.files.items s.faulted;
    } };

    fn start_read(&mut self, name: &str) -> Result<(), Refusal> {
        let Some(i) = position(self.files.as_slice(), name) else {
            self.reading = None;
            self.taken = 0;
            return Err(Refusal::Absent);
        };
        match Vec::from_slice(self.alloc, self.files[i].bytes.as_slice()) {
            Ok(text) => {
                self.text = text;
                self.taken = 0;
                self.reading = Some(i);
                self.given.start(name.as_bytes());
                Ok(())
            }
            Err(error) => {
                self.wants = raised(self.wants);
                Err(Refusal::Memory(error))
            }
        }
    }

    fn read(&mut self, buf: &mut [u8]) -> Result<usize, Refusal> {
        let n = copy_front(&self.text[self.taken..], buf);
        self.taken += n;
        self.given.extend(&buf[..n]);
        Ok(n)
    }

    fn start_write(&mut self, name: &str) -> Result<(), Refusal> {
        match put_file(self.alloc, &mut self.files, name, Vec::new(self.alloc)) {
            Ok(i) => {
                self.writing = Some(i);
                self.is_unfinished = true;
                Ok(())
            }
            Err(error) => {
                self.wants = raised(self.wants);
                Err(Refusal::Memory(error))
            }
        }
    }

    fn write(&mut self, piece: &[u8]) -> Result<usize, Refusal> {
        let Some(i) = self.writing else {
            unreachable!()
        };
        match append_to_file(&mut self.files, i, piece) {
            Ok(()) => {
                self.is_unfinished = true;
                Ok(piece.len())
            }
            Err(error) => {
                self.wants = raised(self.wants);
                Err(Refusal::Memory(error))
            }
        }
    }

    fn finish_write(&mut self) -> Result<(), Refusal> {
        self.is_unfinished = false;
        Ok(())
    }
}
