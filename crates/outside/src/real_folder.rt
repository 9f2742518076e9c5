// Files of the system.
ghost use Rattle.std.specs.Prelude.{None, string_bytes};
ghost use Rattle.outside.specs.Told.{Untold};
ghost use Rattle.outside.specs.Folder.{IsFresh};
ghost use Rattle.outside.specs.Fault.{faulted_name, open_name};

use crate::count::raised;
use crate::fault::Fault;
use crate::folder::Folder;
use crate::given::Given;
use crate::refusal::Refusal;
use std::alloc::Global;
use std::io::{Read, Write};
use std::rt::Files;
use std::{fs, mem};

/// The system's files, by their paths. Contracts see nothing of what they hold.
///
/// A name without a file is a failure here. It wants memory for the names that it keeps.
#[derive(Drop)]
pub struct RealFolder<R: Files + Drop> {
    rt: R,
    alloc: Global,
    // The path that was last given to `start_read`, and its file while it is read.
    source_name: String,
    source: Option<R::File>,
    taken: u64,
    given: Given,
    fault: Fault,
    // The path being written, and its file.
    target_name: String,
    target: Option<R::File>,
    is_unfinished: bool,
    read_faults: u64,
    write_faults: u64,
    wants: u64,
}

impl<R: Files + Drop> RealFolder<R> {
    /// No file is read or written yet.
    pub fn new(alloc: Global, rt: R) -> Self
        ensures { IsFresh (⟦<RealFolder<R> as Folder>⟧.state result) }
    {
        RealFolder {
            rt,
            alloc,
            source_name: String::new(alloc),
            source: None,
            taken: 0,
            given: Given::new(),
            fault: Fault::Never,
            target_name: String::new(alloc),
            target: None,
            is_unfinished: false,
            read_faults: 0,
            write_faults: 0,
            wants: 0,
        }
    }
}

impl<R: Files + Drop> Folder for RealFolder<R> {
    ghost state = { λ s. record {
      holds = λ _. Untold;
      reading = open_name s.source (string_bytes s.source_name);
      rest = None;
      taken = s.taken;
      given = s.given.files;
      writing = open_name s.target (string_bytes s.target_name);
      unfinished = s.is_unfinished;
      read_faults = s.read_faults;
      write_faults = s.write_faults;
      wants = s.wants;
      faulted = faulted_name s.fault (string_bytes s.source_name);
    } };

    fn start_read(&mut self, name: &str) -> Result<(), Refusal> {
        let copy = match String::from_str(self.alloc, name) {
            Ok(copy) => copy,
            Err(error) => {
                self.wants = raised(self.wants);
                return Err(Refusal::Memory(error));
            }
        };
        let earlier = mem::replace(&mut self.source_name, copy);
        self.taken = 0;
        match fs::open(&self.rt, name) {
            Ok(file) => {
                if let Fault::Here = self.fault {
                    self.fault = Fault::Before(earlier);
                }
                self.source = Some(file);
                self.given.start(name.as_bytes());
                Ok(())
            }
            Err(_) => {
                self.source = None;
                self.fault = Fault::Here;
                self.read_faults = raised(self.read_faults);
                Err(Refusal::Failed)
            }
        }
    }

    fn read(&mut self, buf: &mut [u8]) -> Result<usize, Refusal> {
        let Some(file) = &mut self.source else {
            unreachable!()
        };
        if let Ok(n) = file.read(buf) {
            // A file of 2^64 bytes or more can't be counted: that is a fault.
            if let Some(taken) = self.taken.checked_add(n as u64) {
                self.taken = taken;
                self.given.extend(&buf[..n]);
                return Ok(n);
            }
        }
        self.fault = Fault::Here;
        self.read_faults = raised(self.read_faults);
        Err(Refusal::Failed)
    }

    fn start_write(&mut self, name: &str) -> Result<(), Refusal> {
        let copy = match String::from_str(self.alloc, name) {
            Ok(copy) => copy,
            Err(error) => {
                self.wants = raised(self.wants);
                return Err(Refusal::Memory(error));
            }
        };
        match fs::create(&self.rt, name) {
            Ok(file) => {
                self.target_name = copy;
                self.target = Some(file);
                self.is_unfinished = true;
                Ok(())
            }
            Err(_) => {
                self.write_faults = raised(self.write_faults);
                Err(Refusal::Failed)
            }
        }
    }

    fn write(&mut self, piece: &[u8]) -> Result<usize, Refusal> {
        let Some(file) = &mut self.target else {
            unreachable!()
        };
        match file.write(piece) {
            Ok(n) if n > 0 || piece.is_empty() => {
                self.is_unfinished = true;
                Ok(n)
            }
            _ => {
                self.write_faults = raised(self.write_faults);
                Err(Refusal::Failed)
            }
        }
    }

    fn finish_write(&mut self) -> Result<(), Refusal> {
        let Some(file) = &mut self.target else {
            unreachable!()
        };
        match file.flush() {
            Ok(()) => {
                self.is_unfinished = false;
                Ok(())
            }
            Err(_) => {
                self.write_faults = raised(self.write_faults);
                Err(Refusal::Failed)
            }
        }
    }
}
