//! A runtime whose calls for files are counted, and of which one fails. The real folder is given it in the system's place.
use std::alloc::Allocator;
use std::cell::Cell;
use std::fs::{Metadata, OpenFile, OpenOptions};
use std::io;
use std::io::{ErrorKind, Read, Seek, SeekFrom, Write};
use std::rt::Files;

/// How many calls there were, and the number of the one that fails.
#[derive(Drop)]
pub(crate) struct Calls {
    made: Cell<u64>,
    failing: u64,
}

impl Calls {
    /// No call was made yet.
    pub(crate) fn new(failing: u64) -> Calls {
        Calls {
            made: Cell::new(0),
            failing,
        }
    }

    pub(crate) fn made(&self) -> u64 {
        self.made.get()
    }

    /// Counts a call, which fails where it is the one.
    fn make(&self) -> io::Result<()> {
        let call = self.made.get().saturating_add(1);
        self.made.set(call);
        if call == self.failing {
            return Err(io::Error::from(ErrorKind::Other));
        }
        Ok(())
    }
}

/// The files of a runtime, each opening of which is a call that counts.
#[derive(Drop)]
pub(crate) struct CountedFiles<'a, R> {
    pub(crate) rt: &'a R,
    pub(crate) calls: &'a Calls,
}

/// A file, each reading and writing of which is a call that counts.
#[derive(Drop)]
pub(crate) struct CountedFile<'a, F: Drop> {
    file: F,
    calls: &'a Calls,
}

impl<F: Read + Drop> Read for CountedFile<'_, F> {
    fn read(&mut self, buf: &mut [u8]) -> io::Result<usize> {
        self.calls.make()?;
        self.file.read(buf)
    }
}

impl<F: Write + Drop> Write for CountedFile<'_, F> {
    fn write(&mut self, buf: &[u8]) -> io::Result<usize> {
        self.calls.make()?;
        self.file.write(buf)
    }

    fn flush(&mut self) -> io::Result<()> {
        self.file.flush()
    }
}

impl<F: Seek + Drop> Seek for CountedFile<'_, F> {
    fn seek(&mut self, to: SeekFrom) -> io::Result<u64> {
        self.file.seek(to)
    }
}

impl<F: OpenFile + Drop> OpenFile for CountedFile<'_, F> {
    fn metadata(&self) -> io::Result<Metadata> {
        self.file.metadata()
    }

    fn set_len(&self, size: u64) -> io::Result<()> {
        self.file.set_len(size)
    }

    fn sync_all(&self) -> io::Result<()> {
        self.file.sync_all()
    }

    fn sync_data(&self) -> io::Result<()> {
        self.file.sync_data()
    }
}

impl<'a, R: Files> Files for CountedFiles<'a, R> {
    type File = CountedFile<'a, R::File>;

    type Dir = R::Dir;

    fn open_file(&self, how: &OpenOptions, path: &str) -> io::Result<CountedFile<'a, R::File>> {
        self.calls.make()?;
        let file = self.rt.open_file(how, path)?;
        Ok(CountedFile {
            file,
            calls: self.calls,
        })
    }

    fn open_dir(&self, path: &str) -> io::Result<R::Dir> {
        self.rt.open_dir(path)
    }

    fn metadata(&self, path: &str) -> io::Result<Metadata> {
        self.rt.metadata(path)
    }

    fn symlink_metadata(&self, path: &str) -> io::Result<Metadata> {
        self.rt.symlink_metadata(path)
    }

    fn copy(&self, from: &str, to: &str) -> io::Result<u64> {
        self.rt.copy(from, to)
    }

    fn rename(&self, from: &str, to: &str) -> io::Result<()> {
        self.rt.rename(from, to)
    }

    fn remove_file(&self, path: &str) -> io::Result<()> {
        self.rt.remove_file(path)
    }

    fn create_dir(&self, path: &str) -> io::Result<()> {
        self.rt.create_dir(path)
    }

    fn remove_dir(&self, path: &str) -> io::Result<()> {
        self.rt.remove_dir(path)
    }

    fn remove_dir_all<B: Allocator>(&self, alloc: B, path: &str) -> io::Result<()> {
        self.rt.remove_dir_all(alloc, path)
    }
}
