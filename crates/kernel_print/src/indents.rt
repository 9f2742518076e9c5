// How far lines are indented.
ghost use Rattle.text_lines.specs.Puts.{Prints};
ghost use Rattle.kernel_print.specs.Text.{depth_of, indentation};

use outside::{Refusal, Sink};
use text_lines::put_all;

/// The brackets that are open, from the innermost: a chain of references, since no number has a bound that a
/// kernel's nesting keeps.
#[derive(Drop)]
pub(crate) enum Indent<'a> {
    Margin,
    Within(&'a Indent<'a>),
}

/// Appends two blanks for each bracket that is open.
pub(crate) fn put_indentation<S: Sink>(sink: &mut S, indent: &Indent<'_>) -> Result<(), Refusal>
    ensures { Prints (S.state sink.old) (S.state sink.new) (indentation (depth_of indent.now)) result }
{
    match indent {
        Indent::Margin => Ok(()),
        Indent::Within(outer) => {
            put_all(sink, b"  ")?;
            put_indentation(sink, outer)
        }
    }
}
