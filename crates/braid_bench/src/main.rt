//! The Dehornoy workbench: its program.
//!
//! It makes the standard streams, and leaves all else to `wb_top::run`.
#![tactic(auto)]

use std::process::ExitCode;
use std::{env, io};
use wb_base::{StdSink, StdSource};
use wb_top::run;

// The exit code where the words of the command line can't be had: no status of `run`.
const NO_WORDS: u8 = 8;

// The words of the command line, after the program's name.
fn words(rt: &HostRuntime) -> io::Result<Vec<String>> {
    let mut words = Vec::new(rt.alloc());
    for word in env::args(rt)?.skip(1) {
        words.push(word)?;
    }
    Ok(words)
}

fn main(rt: HostRuntime) -> ExitCode {
    let Ok(words) = words(&rt) else {
        return ExitCode::from(NO_WORDS);
    };
    let mut source = StdSource::new(rt.stdin());
    let mut sink = StdSink::new(rt.stdout());
    let status = run(rt.alloc(), &words, &mut source, &mut sink);
    ExitCode::from(status.code())
}
