// What is printed of a run.
ghost use Rattle.std.specs.Prelude.{◌≡◌, OnOk, IfErr, length};
ghost use Rattle.outside.specs.Sink.{Appends};
ghost use Rattle.text_lines.specs.Puts.{AppendsPart};
ghost use Rattle.storage_arrays.specs.Arrays.{AreDone};
ghost use Rattle.result_files.specs.Writes.{PutsAll, PutsFront};
ghost use Rattle.bindings.specs.Names.{name_at};
ghost use Rattle.reports.specs.Reports.{result_report, run_report};

use crate::kernels::KernelReport;
use crate::turns::put_turns;
use bindings::name_at;
use format_spec::Format;
use index_notation::Statement;
use kernel_code::{Kernel, Turns};
use numbers::Semiring;
use outside::{Refusal, Sink};
use result_files::{Text, WriteRefusal, print_text};
use std::marker::PhantomData;
use storage_text::put_store_text;
use tensor_storage::Tensor;

/// The bytes of the result's name: none where a statement has no tensors.
fn result_name(statement: &Statement) -> &[u8]
    ensures { result.now ≡ name_at statement.now.tensors 0 }
{
    name_at(statement.tensors.as_slice(), 0)
}

/// Appends the turns that loops made, and the storage of the result.
fn put_result<S: Semiring, K: Sink>(
    sink: &mut K,
    statement: &Statement,
    turns: &Turns,
    tensor: &Tensor,
) -> Result<(), Refusal>
    requires { AreDone 1 tensor.now.levels }
    ensures whole { OnOk result
        (Appends (K.state sink.old) (K.state sink.new) (result_report S.is_signed statement.now turns.now tensor.now)) }
    ensures part { IfErr result
        (AppendsPart (K.state sink.old) (K.state sink.new) (result_report S.is_signed statement.now turns.now tensor.now)) }
{
    let name = result_name(statement);
    put_turns(sink, turns)?;
    put_store_text::<S, K>(sink, 0, name, tensor)
}

/// A kernel, the turns that its loops made in a run, and the result, whose values are written as `S` says.
#[derive(Drop)]
struct RunReport<'a, S: Semiring> {
    kernel: KernelReport<'a>,
    turns: &'a Turns,
    tensor: &'a Tensor,
    semiring: PhantomData<S>,
}

impl<'a, S: Semiring> Text for RunReport<'a, S> {
    ghost text = { λ r. run_report S.is_signed r.kernel.statement.now r.kernel.order.now r.kernel.formats.now r.kernel.kernel.now
        r.turns.now
        r.tensor.now };

    ghost may_be_put = { λ r. (length r.kernel.formats.now ≡ length r.kernel.statement.now.tensors) × AreDone 1 r.tensor.now.levels };

    fn put<K: Sink>(&self, sink: &mut K) -> Result<(), Refusal> {
        self.kernel.put(sink)?;
        put_result::<S, K>(sink, self.kernel.statement, self.turns, self.tensor)
    }
}

/// Prints a kernel behind the order of its statement's loops and its tensors with their formats, then how many turns its loops made
/// in a run and the storage of the result, whose values have signs where `S` has one, and finishes the output. It takes no memory but
/// what the output takes.
///
/// A fault comes only where the output counted one, and want of memory only where it counted one. A front of the text stands
/// there after a refusal.
pub fn print_run_report<'a, S: Semiring, O: Sink>(
    out: &mut O,
    statement: &'a Statement,
    order: &'a [usize],
    formats: &'a [Format],
    kernel: &'a Kernel,
    turns: &'a Turns,
    tensor: &'a Tensor,
) -> Result<(), WriteRefusal>
    requires formats { length formats.now ≡ length statement.now.tensors }
    requires done { AreDone 1 tensor.now.levels }
    ensures whole { OnOk result (PutsAll (O.state out.old) (O.state out.new)
        (run_report S.is_signed statement.now order.now formats.now kernel.now turns.now tensor.now)) }
    ensures part { IfErr result (PutsFront (O.state out.old) (O.state out.new)
        (run_report S.is_signed statement.now order.now formats.now kernel.now turns.now tensor.now)) }
{
    let kernel = KernelReport {
        statement,
        order,
        formats,
        kernel,
    };
    print_text(
        out,
        &RunReport::<S> {
            kernel,
            turns,
            tensor,
            semiring: PhantomData,
        },
    )
}
