//! Going over case files.

use crate::answer::Answer;
use anyhow::{Context, Result, bail};
use std::rt::{Env, Files};
use std::{env, fs};

/// What a program makes of the lines of its case files.
pub trait Cases {
    /// Whether a line is printed, with what comes of it below, each line of that behind four blanks. What comes of another line is
    /// printed as it is told.
    fn shows(&self, _line: &str) -> bool {
        true
    }

    /// Tells what comes of a line. None where it isn't a case, or for want of memory that the answer has noted.
    fn read_line(&mut self, line: &str, answer: &mut Answer) -> Option<()>;

    /// Tells what is left to tell at the end of a file, which is printed as it is told.
    fn end_file(&mut self, _answer: &mut Answer) -> Option<()> {
        Some(())
    }
}

/// The first word of a line, and what stands behind the blank that follows.
pub fn keyword_of(line: &str) -> (&str, &str) {
    line.split_once(' ').unwrap_or((line, ""))
}

/// Prints what was told, once the case is through.
fn print_told<R: Print>(rt: &R, answer: &Answer, outcome: Option<()>) -> Result<()> {
    if answer.wants_memory() {
        bail!("out of memory");
    }
    outcome.context("no such case")?;
    print!(rt; "{}", answer.as_str())?;
    Ok(())
}

/// Prints what comes of a line, if it isn't a comment or empty.
fn run_line<R: Print + AllocGlobal, C: Cases>(rt: &R, cases: &mut C, line: &str) -> Result<()> {
    if line.is_empty() || line.starts_with('#') {
        return Ok(());
    }
    let shows = cases.shows(line);
    if shows {
        println!(rt; "{line}")?;
    }
    let mut answer = Answer::new(rt.alloc());
    let outcome = cases.read_line(line, &mut answer);
    if shows {
        answer.indent();
    }
    print_told(rt, &answer, outcome)
}

/// Prints what is left to tell at the end of a file.
fn end_file<R: Print + AllocGlobal, C: Cases>(rt: &R, cases: &mut C) -> Result<()> {
    let mut answer = Answer::new(rt.alloc());
    let outcome = cases.end_file(&mut answer);
    print_told(rt, &answer, outcome)
}

fn run_file<R: Files + Print + AllocGlobal, C: Cases>(
    rt: &R,
    cases: &mut C,
    path: &str,
) -> Result<()> {
    let text = fs::read_to_string(rt, path)?;
    for line in text.lines() {
        run_line(rt, cases, line).context(format_args!("{line}"))?;
    }
    end_file(rt, cases)
}

/// Goes over the case files that the command line names, line by line.
pub fn run_lines<R: Env + Files + Print + AllocGlobal, C: Cases>(
    rt: &R,
    cases: &mut C,
) -> Result<()> {
    for path in env::args(rt)?.skip(1) {
        run_file(rt, cases, path.as_str()).context(format_args!("{path}"))?;
    }
    Ok(())
}
