//! A case of files and streams, `NUMBERS over SEMIRING cut LENGTHS fail CALLS | TEXT`, and the objects in memory that do as it says.
use case_files::Answer;
use outside::{MemFolder, MemSink};

/// The numbers of the head, the semiring, the greatest lengths of pieces, in turn, and the numbers of the calls that fail; and the text.
#[derive(Clone, Copy)]
pub(crate) struct Scripted<'a> {
    pub(crate) numbers: &'a [u64],
    pub(crate) over: &'a str,
    pub(crate) cuts: &'a [u64],
    pub(crate) fails: &'a [u64],
    pub(crate) text: &'a [u8],
}

impl Scripted<'_> {
    /// The first number of the head.
    pub(crate) fn number(&self) -> Option<u64> {
        self.numbers.first().copied()
    }

    /// A folder that cuts and fails as the case says.
    pub(crate) fn folder(&self, answer: &mut Answer) -> MemFolder {
        let mut folder = MemFolder::new(answer.alloc());
        for length in self.cuts {
            answer.note(folder.cut_into(&[*length as usize]));
        }
        for call in self.fails {
            answer.note(folder.fail_at(*call));
        }
        folder
    }

    /// A sink that cuts and fails as the case says.
    pub(crate) fn sink(&self, answer: &mut Answer) -> MemSink {
        let mut sink = MemSink::new(answer.alloc());
        for length in self.cuts {
            answer.note(sink.cut_into(&[*length as usize]));
        }
        for call in self.fails {
            answer.note(sink.fail_at(*call));
        }
        sink
    }
}
