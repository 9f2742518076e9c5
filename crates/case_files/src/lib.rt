//! What programs of cases share. They go over the case files that the command line names, line by line, and print what comes of each,
//! which is compared with a file `stdout`, where stands what must come. A line that begins with `#`, or is empty, is passed over. A line
//! that isn't a case, or want of memory, ends the program with an error that tells the file and the line.
#![tactic(auto)]

mod answer;
mod running;
mod texts;

pub use answer::Answer;
pub use running::{Cases, keyword_of, run_lines};
