//! How a command ends that isn't refused.
ghost use Rattle.std.specs.Prelude.{◌≡◌};
ghost use Rattle.taco_top.specs.Prepared.{end_of, end_of_printing};

use kernel_code::Turns;
use refusals::Fault;
use result_files::WriteRefusal;

/// What a command has done.
#[derive(Clone, Copy, Debug, Drop)]
pub(crate) enum Done {
    /// The result was written, of a run of so many turns.
    Written(Turns),
    /// A text was printed.
    Printed,
}

/// How a command ends whose text was printed, or wasn't.
pub(crate) fn printed<'a>(answer: Result<(), WriteRefusal>) -> Result<Done, Fault<'a>>
    ensures { end_of result ≡ end_of_printing answer }
{
    match answer {
        Ok(()) => Ok(Done::Printed),
        Err(WriteRefusal::Fault) => Err(Fault::WriteFault(None)),
        Err(WriteRefusal::Memory(_)) => Err(Fault::Memory),
    }
}
