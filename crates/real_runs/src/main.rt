//! Several command lines over the real folder and streams, one behind another: the words of each stand behind a word `then`, which takes
//! the place of the program's name. It ends with the status of the first that isn't 0, and runs none behind that one.
#![tactic(auto)]

use anyhow::Result;
use outside::{RealFolder, StdSink};
use std::env;
use std::process::ExitCode;
use taco_top::taco;

fn main(rt: HostRuntime) -> Result<ExitCode> {
    let mut words = Vec::new(rt.alloc());
    for word in env::args(&rt)? {
        words.push(word)?;
    }
    let mut files = RealFolder::new(rt.alloc(), &rt);
    let mut out = StdSink::new(rt.stdout());
    let mut err = StdSink::new(rt.stderr());
    for line in words.as_slice().chunk_by(|_, word| word.as_str() != "then") {
        let status = taco(rt.alloc(), line, &mut files, &mut out, &mut err);
        if status != 0 {
            return Ok(ExitCode::from(status));
        }
    }
    Ok(ExitCode::SUCCESS)
}
