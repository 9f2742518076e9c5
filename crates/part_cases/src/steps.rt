//! What is done with a buffer or a list, step by step.
use case_files::{Answer, keyword_of};
use std::alloc::AllocError;

/// What steps are done with.
pub(crate) trait Steps {
    /// Does the step of this word and these numbers, and tells what it answers. None where there is no such step.
    fn step(&mut self, answer: &mut Answer, word: &str, numbers: &[u64]) -> Option<()>;
}

/// Does steps one after another, and tells what they answer.
pub(crate) fn tell_steps<S: Steps>(
    answer: &mut Answer,
    subject: &mut S,
    steps: &str,
) -> Option<()> {
    answer.tell("answers");
    for step in steps.split(';') {
        let (word, numbers) = keyword_of(step.trim());
        let numbers = answer.numbers(numbers)?;
        subject.step(answer, word, numbers.as_slice())?;
    }
    answer.tell(", leaves ");
    Some(())
}

/// Tells that memory was refused, if it was.
pub(crate) fn tell_refusal(answer: &mut Answer, done: Result<(), AllocError>) {
    if done.is_err() {
        answer.tell(" refused");
    }
}
