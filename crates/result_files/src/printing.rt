//! A text that is printed whole to an output.
ghost use Rattle.std.specs.Prelude.{ℕ, List, OnOk, IfErr};
ghost use Rattle.outside.specs.Sink.{Appends};
ghost use Rattle.text_lines.specs.Puts.{AppendsPart};
ghost use Rattle.result_files.specs.Fills.{FillsPart};
ghost use Rattle.result_files.specs.Writes.{PutsAll, PutsFront};

use crate::refusal::WriteRefusal;
use crate::tally::Tally;
use outside::{Batch, Refusal, Sink};

/// What has a text, and appends it to any sink.
pub trait Text {
    /// Its text.
    ghost text: { Self → List ℕ };

    /// When it may be put: always, where a type doesn't say otherwise.
    ghost may_be_put: { Self → Type 0 } = { λ _. Unit {0} };

    /// Appends the text. After a refusal a part of it at its front was appended, and not the whole.
    fn put<K: Sink>(&self, sink: &mut K) -> Result<(), Refusal>
        requires { may_be_put self.now }
        ensures whole { OnOk result (Appends (K.state sink.old) (K.state sink.new) (text self.now)) }
        ensures part { IfErr result (AppendsPart (K.state sink.old) (K.state sink.new) (text self.now)) };
}

/// Appends a text in large pieces, and finishes.
pub(crate) fn fill<K: Sink, T: Text>(sink: &mut K, text: &T) -> Result<(), Refusal>
    requires { T.may_be_put text.now }
    ensures whole { OnOk result (PutsAll (K.state sink.old) (K.state sink.new) (T.text text.now)) }
    ensures part { IfErr result (FillsPart (K.state sink.old) (K.state sink.new) (T.text text.now)) }
{
    let mut batch = Batch::new(sink);
    text.put(&mut batch)?;
    batch.finish()?;
    Ok(())
}

/// Prints a text to an output in large pieces, and finishes that. It takes no memory but what the output and the text take.
///
/// A fault comes only where the output counted one, and want of memory only where it counted one. A front of the text stands
/// there after a refusal.
pub fn print_text<O: Sink, T: Text>(out: &mut O, text: &T) -> Result<(), WriteRefusal>
    requires { T.may_be_put text.now }
    ensures whole { OnOk result (PutsAll (O.state out.old) (O.state out.new) (T.text text.now)) }
    ensures part { IfErr result (PutsFront (O.state out.old) (O.state out.new) (T.text text.now)) }
{
    let mut tally = Tally::new(out);
    fill(&mut tally, text)?;
    Ok(())
}
