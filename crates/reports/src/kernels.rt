// What is printed of a kernel.
ghost use Rattle.std.specs.Prelude.{◌≡◌, OnOk, IfErr, length};
ghost use Rattle.result_files.specs.Writes.{PutsAll, PutsFront};
ghost use Rattle.reports.specs.Reports.{kernel_report};

use crate::heading::put_heading;
use format_spec::Format;
use index_notation::Statement;
use kernel_code::Kernel;
use kernel_print::put_kernel;
use outside::{Refusal, Sink};
use result_files::{Text, WriteRefusal, print_text};

/// A kernel with its statement, the order of the loops and the formats of the tensors.
#[derive(Drop)]
pub(crate) struct KernelReport<'a> {
    pub(crate) statement: &'a Statement,
    pub(crate) order: &'a [usize],
    pub(crate) formats: &'a [Format],
    pub(crate) kernel: &'a Kernel,
}

impl<'a> Text for KernelReport<'a> {
    ghost text = { λ r. kernel_report r.statement.now r.order.now r.formats.now r.kernel.now };

    ghost may_be_put = { λ r. length r.formats.now ≡ length r.statement.now.tensors };

    fn put<K: Sink>(&self, sink: &mut K) -> Result<(), Refusal> {
        put_heading(sink, self.statement, self.order, self.formats)?;
        put_kernel(sink, self.kernel)
    }
}

/// Prints a kernel behind the order of its statement's loops and its tensors with their formats, and finishes the output. It takes
/// no memory but what the output takes.
///
/// A fault comes only where the output counted one, and want of memory only where it counted one. A front of the text stands
/// there after a refusal.
pub fn print_kernel_report<O: Sink>(
    out: &mut O,
    statement: &Statement,
    order: &[usize],
    formats: &[Format],
    kernel: &Kernel,
) -> Result<(), WriteRefusal>
    requires { length formats.now ≡ length statement.now.tensors }
    ensures whole { OnOk result (PutsAll (O.state out.old) (O.state out.new)
        (kernel_report statement.now order.now formats.now kernel.now)) }
    ensures part { IfErr result (PutsFront (O.state out.old) (O.state out.new)
        (kernel_report statement.now order.now formats.now kernel.now)) }
{
    let report = KernelReport {
        statement,
        order,
        formats,
        kernel,
    };
    print_text(out, &report)
}
