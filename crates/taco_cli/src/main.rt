//! The program `taco`: it makes the real folder and streams, and hands them with its arguments to `taco_top::run_program`.
#![tactic(auto)]

use outside::{RealFolder, StdSink};
use std::env;
use std::process::ExitCode;

fn main(rt: HostRuntime) -> ExitCode {
    let mut files = RealFolder::new(rt.alloc(), &rt);
    let mut out = StdSink::new(rt.stdout());
    let mut err = StdSink::new(rt.stderr());
    taco_top::run_program(rt.alloc(), env::args(&rt), &mut files, &mut out, &mut err)
}
