//! The program: what a command line does, from its words to the bytes of the result. `taco` is generic over the folder with
//! the files and over the streams, so that its contract speaks of any of them; `run_program` calls it with the arguments that the system
//! gave, and the crate above makes the real folder and streams. `specs/Asked.antt`
//! says what the words ask for, before any file is opened, or the first refusal of the words; `specs/Run.antt` what a statement's command
//! is about, and `specs/Ends.antt`, in three parts, why a command ends as it does, and what it shows. `specs/Exec.antt` and
//! `specs/Executed.antt` say the same of `exec`, which runs a kernel that is given in a file.
#![tactic(auto)]

mod asked;
mod asking;
mod computing;
mod ending;
mod executing;
mod laws;
mod operands;
mod printing;
mod program;
mod top;
mod writing;

pub use laws::{
    cycles_are_mended, one_request_a_command_line, texts_are_printed, usage_is_of_words_alone,
    whole_input_is_computed,
};
pub use program::run_program;
pub use top::taco;
