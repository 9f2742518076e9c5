//! The program, over the arguments that its system gives.
ghost use Rattle.std.specs.Prelude.{◌≡◌, IfOk};
ghost use Rattle.std.specs.Process.{exit_status};
ghost use Rattle.taco_top.specs.Ends.{Ends};
ghost use Rattle.taco_top.specs.Program.{words_in};

use crate::top::{refuse, taco};
use outside::{Folder, Sink};
use refusals::Fault;
use std::alloc::{AllocError, Global};
use std::env::Args;
use std::io::{self, ErrorKind};
use std::process::ExitCode;

/// The words of a command line. Arguments that can't be read, or that aren't texts, are one without words; where memory is wanted for
/// them, that is the answer.
fn words_of(alloc: Global, args: io::Result<Args>) -> Result<Vec<String>, AllocError>
    ensures { IfOk result (λ words. words.items ≡ words_in args) }
{
    let mut words = Vec::new(alloc);
    match args {
        Ok(args) => {
            for word in args {
                words.push(word)?;
            }
        }
        Err(error) if error.kind() == ErrorKind::OutOfMemory => return Err(AllocError),
        Err(_) => {}
    }
    Ok(words)
}

/// The program: what `taco` does, over the arguments that its system gave, the program's name first; and its status, as the process
/// ends with it.
pub fn run_program<F: Folder, O: Sink, E: Sink>(
    alloc: Global,
    args: io::Result<Args>,
    files: &mut F,
    out: &mut O,
    err: &mut E,
) -> ExitCode
    ensures { Ends (words_in args) (F.state files.old) (F.state files.new) (O.state out.old) (O.state out.new)
        (E.state err.old) (E.state err.new) (exit_status result) }
{
    let status = match words_of(alloc, args) {
        Ok(words) => taco(alloc, words.as_slice(), files, out, err),
        Err(AllocError) => refuse(err, &Fault::Memory),
    };
    ExitCode::from(status)
}
