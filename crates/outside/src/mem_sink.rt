// A sink in memory whose calls can be made to fail.
ghost use Rattle.std.specs.Prelude.{◌≡◌, [], true, Some};

use crate::count::raised;
use crate::memory_text::MemoryText;
use crate::refusal::Refusal;
use crate::script::Script;
use crate::sink::Sink;
use std::alloc::{AllocError, Global};

/// Keeps the bytes that it is given. Its calls are numbered from 1; those whose numbers it is told fail.
#[derive(Drop)]
pub struct MemSink {
    text: MemoryText,
    script: Script,
    faults: u64,
}

impl MemSink {
    ghost use Rattle.outside.specs.MemSink.{IsSameButScript};

    /// An empty sink that fails no call and cuts no piece.
    pub fn new(alloc: Global) -> Self
        ensures written { (⟦<MemSink as Sink>⟧.state result).written ≡ Some [] }
        ensures unfinished { (⟦<MemSink as Sink>⟧.state result).unfinished ≡ true }
        ensures faults { (⟦<MemSink as Sink>⟧.state result).faults ≡ 0 }
        ensures wants { (⟦<MemSink as Sink>⟧.state result).wants ≡ 0 }
    {
        MemSink {
            text: MemoryText::new(alloc),
            script: Script::new(alloc),
            faults: 0,
        }
    }

    /// Makes the call of this number fail, the first being number 1.
    pub fn fail_at(&mut self, call: u64) -> Result<(), AllocError>
        ensures { IsSameButScript self.old self.new }
    {
        self.script.fail_at(call)
    }

    /// Makes writes take at most so many bytes: these numbers are used in turn, from the first again after the last.
    /// A 0 counts as 1. Numbers given later come after these.
    pub fn cut_into(&mut self, lengths: &[usize]) -> Result<(), AllocError>
        ensures { IsSameButScript self.old self.new }
    {
        self.script.cut_into(lengths)
    }

    /// The bytes that it was given.
    pub fn written(&self) -> &[u8]
        ensures { (⟦<MemSink as Sink>⟧.state self.now).written ≡ Some result.now }
    {
        self.text.bytes()
    }

    /// Whether a `finish` is due.
    pub fn is_unfinished(&self) -> bool
        ensures { result ≡ (⟦<MemSink as Sink>⟧.state self.now).unfinished }
    {
        self.text.is_unfinished()
    }

    /// How often a call failed.
    pub fn faults(&self) -> u64
        ensures { result ≡ (⟦<MemSink as Sink>⟧.state self.now).faults }
    {
        self.faults
    }

    /// How often it wanted memory.
    pub fn wants(&self) -> u64
        ensures { result ≡ (⟦<MemSink as Sink>⟧.state self.now).wants }
    {
        self.text.wants()
    }
}

impl Sink for MemSink {
    ghost state = { λ s. record (⟦<MemoryText as Sink>⟧.state s.text) { faults = s.faults } };

    fn write(&mut self, piece: &[u8]) -> Result<usize, Refusal> {
        if self.script.next_call() {
            self.faults = raised(self.faults);
            return Err(Refusal::Failed);
        }
        let n = self.script.piece_length(piece.len());
        self.text.write(&piece[..n])
    }

    fn finish(&mut self) -> Result<(), Refusal> {
        if self.script.next_call() {
            self.faults = raised(self.faults);
            return Err(Refusal::Failed);
        }
        self.text.finish()
    }
}
