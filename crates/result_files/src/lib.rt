//! A text printed whole to an output (`Text`, `print_text`), and a result written as a file's text, to the output or into a folder's
//! file: `write_result`, which takes no memory. `specs/ResultText.antt` defines the text, and `specs/Writes.antt` what stands after the
//! writing.
#![tactic(auto)]

mod handed;
mod printing;
mod refusal;
mod tally;
mod tensor_text;
mod writing;

pub use printing::{Text, print_text};
pub use refusal::WriteRefusal;
pub use writing::write_result;
