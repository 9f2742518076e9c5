//! Texts that are read as kernels.
use case_files::Answer;
use kernel_print::put_kernel;
use kernel_read::read_kernel;
use outside::MemSink;
use std::alloc::Global;
use std::mem;

/// The text so far that is to be read.
#[derive(Drop)]
pub(crate) struct Text {
    bytes: Vec<u8>,
}

/// What comes of a text that is read as a kernel: it is the text of the kernel, but for comments, or why it is none.
fn tell_bytes(answer: &mut Answer, bytes: &[u8]) {
    match read_kernel(answer.alloc(), bytes) {
        Ok(kernel) => {
            let mut sink = MemSink::new(answer.alloc());
            answer.note(put_kernel(&mut sink, &kernel));
            if bytes.ends_with(sink.written()) {
                answer.tell("read back");
            } else {
                answer.tell("read as another");
            }
        }
        Err(fault) => answer.show(fault),
    }
}

impl Text {
    pub(crate) fn new(alloc: Global) -> Text {
        Text {
            bytes: Vec::new(alloc),
        }
    }

    /// Adds a piece.
    pub(crate) fn add(&mut self, answer: &mut Answer, piece: &str) -> Option<()> {
        let bytes = answer.bytes(piece)?;
        answer.note(self.bytes.extend_from_slice(&bytes));
        Some(())
    }

    /// Adds a line, with its line feed.
    pub(crate) fn add_line(&mut self, answer: &mut Answer, line: &str) -> Option<()> {
        self.add(answer, line)?;
        answer.note(self.bytes.push(b'\n'));
        Some(())
    }

    /// Adds copies of a piece. Their number stands before it, and a blank.
    pub(crate) fn add_copies(&mut self, answer: &mut Answer, copies: &str) -> Option<()> {
        let (count, piece) = copies.split_once(' ')?;
        for _ in 0..count.parse::<u32>().ok()? {
            answer.note(self.bytes.extend_from_slice(piece.as_bytes()));
        }
        Some(())
    }

    /// Tells what comes of the text; a new one begins.
    pub(crate) fn tell(&mut self, answer: &mut Answer, name: &str) -> Option<()> {
        let bytes = mem::replace(&mut self.bytes, Vec::new(answer.alloc()));
        answer.tell(name);
        answer.tell(": ");
        tell_bytes(answer, &bytes);
        answer.tell("\n");
        Some(())
    }

    /// Tells what comes of a kernel over the ring that has this one line of a body.
    pub(crate) fn tell_line(&mut self, answer: &mut Answer, line: &str) -> Option<()> {
        self.add_line(answer, "kernel {")?;
        self.add(answer, "  ")?;
        self.add_line(answer, line)?;
        self.add_line(answer, "}")?;
        self.tell(answer, line)
    }
}
