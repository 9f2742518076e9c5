// The line of a generated workload, printed.
ghost use Rattle.std.specs.Prelude.{OnOk, IfErr};
ghost use Rattle.reports.specs.Reports.{workload_line};
ghost use Rattle.result_files.specs.Writes.{PutsAll, PutsFront};

use crate::workload::{Workload, put_workload};
use outside::{Refusal, Sink};
use result_files::{Text, WriteRefusal, print_text};

/// The line of a generated workload.
#[derive(Drop)]
struct WorkloadLine<'a> {
    workload: &'a Workload,
}

impl<'a> Text for WorkloadLine<'a> {
    ghost text = { λ line. workload_line line.workload.now };

    fn put<K: Sink>(&self, sink: &mut K) -> Result<(), Refusal> {
        put_workload(sink, self.workload)
    }
}

/// Prints the line of a generated workload, and finishes the output. It takes no memory but what the output takes.
///
/// A fault comes only where the output counted one, and want of memory only where it counted one. A front of the line stands
/// there after a refusal.
pub fn print_workload<O: Sink>(out: &mut O, workload: &Workload) -> Result<(), WriteRefusal>
    ensures whole { OnOk result (PutsAll (O.state out.old) (O.state out.new) (workload_line workload.now)) }
    ensures part { IfErr result (PutsFront (O.state out.old) (O.state out.new) (workload_line workload.now)) }
{
    print_text(out, &WorkloadLine { workload })
}
