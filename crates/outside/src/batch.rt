// A sink that hands on large pieces.
ghost use Rattle.std.specs.Prelude.{◌≡◌, ◌<◌, ◌≤◌, [], true, false, IfOk, IfErr, OnOk, length};
ghost use Rattle.outside.specs.Sink.{Takes, Finishes, Refuses, Stays, Appends, AppendsFirst, batched};

use crate::kept::Kept;
use crate::refusal::Refusal;
use crate::sink::Sink;

/// A sink over another one that keeps up to 4,096 bytes back. It hands them on where it is full and is given more, and
/// at `finish`, and takes no memory but its own. What it was given is what the lower sink was given, and then what it keeps.
#[derive(Drop)]
pub struct Batch<'a, S: Sink> {
    lower: &'a mut S,
    kept: Kept,
    is_unfinished: bool,
}

// Gives bytes to a sink until it has taken all of them or refuses, and answers how many it has taken.
fn give<S: Sink>(sink: &mut S, bytes: &[u8]) -> (usize, Result<(), Refusal>)
    ensures within { result.0 ≤ length bytes.now }
    ensures given { OnOk result.1 (Appends (S.state sink.old) (S.state sink.new) bytes.now) }
    ensures refused { IfErr result.1 (AppendsFirst (S.state sink.old) (S.state sink.new) bytes.now result.0) }
{
    let mut rest = bytes;
    while !rest.is_empty() {
        match sink.write(rest) {
            Ok(n) => rest = rest.split_at(n).1,
            Err(refusal) => return (bytes.len() - rest.len(), Err(refusal)),
        }
    }
    (bytes.len(), Ok(()))
}

impl<'a, S: Sink> Batch<'a, S> {
    ghost use Rattle.outside.specs.Batch.{lower_of, borrow_of, kept_of};

    /// Nothing is kept back yet.
    pub fn new(lower: &'a mut S) -> Self
        ensures borrow { borrow_of result ≡ lower.entry.ghost_name }
        ensures lower { lower_of result ≡ lower.old }
        ensures kept { kept_of result ≡ [] }
        ensures state { ⟦<Batch<'a, S> as Sink>⟧.state result ≡ batched (S.state lower.old) lower.entry.ghost_name [] true }
    {
        Batch {
            lower,
            kept: Kept::new(),
            is_unfinished: true,
        }
    }

    /// The bytes that it keeps back.
    pub fn kept(&self) -> &[u8]
        ensures bytes { result.now ≡ kept_of self.now }
        ensures short { length result.now ≤ 4096 }
    {
        self.kept.bytes()
    }

    // Hands on all that is kept back.
    fn pass_on(&mut self) -> Result<(), Refusal>
        ensures passed { OnOk result (Stays (⟦<Batch<'a, S> as Sink>⟧.state self.old) (⟦<Batch<'a, S> as Sink>⟧.state self.new)) }
        ensures empty { OnOk result (kept_of self.new ≡ []) }
        ensures refused { IfErr result (Refuses (⟦<Batch<'a, S> as Sink>⟧.state self.old) (⟦<Batch<'a, S> as Sink>⟧.state self.new)) }
    {
        let (n, answer) = give(self.lower, self.kept.bytes());
        match answer {
            Ok(()) => {
                self.kept.clear();
                Ok(())
            }
            Err(refusal) => {
                self.kept.drop_front(n);
                Err(refusal)
            }
        }
    }

    // Hands on all that is kept back where there is no room for more.
    fn make_room(&mut self) -> Result<(), Refusal>
        ensures made { OnOk result (Stays (⟦<Batch<'a, S> as Sink>⟧.state self.old) (⟦<Batch<'a, S> as Sink>⟧.state self.new)) }
        ensures room { OnOk result (length (kept_of self.new) < 4096) }
        ensures refused { IfErr result (Refuses (⟦<Batch<'a, S> as Sink>⟧.state self.old) (⟦<Batch<'a, S> as Sink>⟧.state self.new)) }
        ensures waits { length (kept_of self.old) < 4096 → lower_of self.new ≡ lower_of self.old }
    {
        if self.kept.is_full() {
            self.pass_on()
        } else {
            Ok(())
        }
    }
}

impl<'a, S: Sink> Sink for Batch<'a, S> {
    ghost use Rattle.outside.specs.Batch.{lower_of, borrow_of, kept_of};

    ghost state = { λ s. batched (S.state (lower_of s)) (borrow_of s) (kept_of s) s.is_unfinished };

    /// The lower sink is called only where 4,096 bytes are kept back.
    fn write(&mut self, piece: &[u8]) -> Result<usize, Refusal>
        ensures taken { IfOk result (Takes (⟦<Batch<'a, S> as Sink>⟧.state self.old) (⟦<Batch<'a, S> as Sink>⟧.state self.new) piece.now) }
        ensures refused { IfErr result (Refuses (⟦<Batch<'a, S> as Sink>⟧.state self.old) (⟦<Batch<'a, S> as Sink>⟧.state self.new)) }
        ensures waits { length (kept_of self.old) < 4096 → lower_of self.new ≡ lower_of self.old }
    {
        self.make_room()?;
        let n = self.kept.keep(piece);
        self.is_unfinished = true;
        Ok(n)
    }

    /// Nothing is kept back after an Ok, and the lower sink is finished too.
    fn finish(&mut self) -> Result<(), Refusal>
        ensures finished { OnOk result (Finishes (⟦<Batch<'a, S> as Sink>⟧.state self.old) (⟦<Batch<'a, S> as Sink>⟧.state self.new)) }
        ensures refused { IfErr result (Refuses (⟦<Batch<'a, S> as Sink>⟧.state self.old) (⟦<Batch<'a, S> as Sink>⟧.state self.new)) }
        ensures empty { OnOk result (kept_of self.new ≡ []) }
        ensures lower { OnOk result ((S.state (lower_of self.new)).unfinished ≡ false) }
    {
        self.pass_on()?;
        self.lower.finish()?;
        self.is_unfinished = false;
        Ok(())
    }
}
