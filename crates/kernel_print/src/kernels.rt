// Kernels.
ghost use Rattle.std.specs.Prelude.{OnOk, IfErr, ◌++◌, codes};
ghost use Rattle.std.specs.Fmt.{decimal};
ghost use Rattle.outside.specs.Sink.{Appends};
ghost use Rattle.text_lines.specs.Puts.{AppendsPart, Prints};
ghost use Rattle.kernel_print.specs.Text.{head_text, kernel_text, lists_text, statements_text, workspaces_text};

use crate::indents::Indent;
use crate::names::{put_name, put_numbered};
use crate::statements::put_statements;
use kernel_code::{Kernel, KernelSemiring};
use outside::{Refusal, Sink};
use text_lines::put_all;

/// Appends the first line of a kernel over a semiring of this name.
fn put_named<S: Sink>(sink: &mut S, name: &[u8]) -> Result<(), Refusal>
    ensures { Prints (S.state sink.old) (S.state sink.new) (codes "kernel " ++ (name.now ++ codes " {\n")) result }
{
    put_all(sink, b"kernel ")?;
    put_all(sink, name)?;
    put_all(sink, b" {\n")
}

/// Appends the first line of a kernel.
fn put_head<S: Sink>(sink: &mut S, semiring: &KernelSemiring) -> Result<(), Refusal>
    ensures { Prints (S.state sink.old) (S.state sink.new) (head_text semiring.now) result }
{
    match semiring {
        KernelSemiring::Ring => put_all(sink, b"kernel {\n"),
        KernelSemiring::Named(name) => put_named(sink, name.as_slice()),
    }
}

/// Appends the line of a workspace.
fn put_workspace<S: Sink>(sink: &mut S, number: u64, keys: u64) -> Result<(), Refusal>
    ensures { Prints (S.state sink.old) (S.state sink.new)
        (codes "  workspace w" ++ (decimal number ++ (codes " " ++ (decimal keys ++ codes ";\n")))) result }
{
    put_numbered(sink, b"  workspace w", number)?;
    put_name(sink, b" ", keys, b";\n")
}

/// Appends a line for each workspace, with its number of keys.
fn put_workspaces<S: Sink>(sink: &mut S, workspaces: &[u64]) -> Result<(), Refusal>
    ensures { Prints (S.state sink.old) (S.state sink.new) (workspaces_text 0 workspaces.now) result }
{
    for (number, keys) in workspaces.iter().enumerate() {
        put_workspace(sink, number as u64, *keys)?;
    }
    Ok(())
}

/// Appends a line for each scratch list.
fn put_lists<S: Sink>(sink: &mut S, count: u64) -> Result<(), Refusal>
    ensures { Prints (S.state sink.old) (S.state sink.new) (lists_text 0 count) result }
{
    for list in 0..count {
        put_name(sink, b"  scratch g", list, b";\n")?;
    }
    Ok(())
}

/// Appends the body and the last line.
fn put_body<S: Sink>(sink: &mut S, kernel: &Kernel) -> Result<(), Refusal>
    ensures { Prints (S.state sink.old) (S.state sink.new) (statements_text 1 kernel.now.body ++ codes "}\n") result }
{
    put_statements(
        sink,
        &Indent::Within(&Indent::Margin),
        kernel.body.as_slice(),
    )?;
    put_all(sink, b"}\n")
}

/// Appends the text of a kernel. After a refusal a part of it at its front was appended. It takes no memory but what
/// the sink takes, and calls itself as deep as the kernel's statements and expressions are nested.
pub fn put_kernel<S: Sink>(sink: &mut S, kernel: &Kernel) -> Result<(), Refusal>
    ensures whole { OnOk result (Appends (S.state sink.old) (S.state sink.new) (kernel_text kernel.now)) }
    ensures part { IfErr result (AppendsPart (S.state sink.old) (S.state sink.new) (kernel_text kernel.now)) }
{
    put_head(sink, &kernel.semiring)?;
    put_workspaces(sink, kernel.workspaces.as_slice())?;
    put_lists(sink, kernel.lists)?;
    put_body(sink, kernel)
}
