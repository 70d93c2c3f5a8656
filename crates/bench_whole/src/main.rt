//! A timing program: mangles the ESTree in JSON on standard input by the stages of a run, under the default options,
//! writes the answer to standard output, and tells on standard error, a line a stage, how many microseconds each
//! stage took. Without words it does nothing.
#![tactic(auto)]

mod stages;
mod watch;

use mangle_tool::adapters::{ReaderSource, WriterSink};
use mangle_tool::read_all::read_all;
use mangle_tool::run::INPUT_LIMIT;
use mangle_tool::write_whole::write_whole;
use stages::answer;
use std::process::ExitCode;
use std::{env, io};
use watch::{now, tell};

// Reads, answers and writes; None where a stage fails.
fn mangle(rt: &HostRuntime) -> Option<()> {
    let start = now(rt)?;
    let mut source = ReaderSource::new(rt.stdin());
    let input = read_all(rt.alloc(), &mut source, INPUT_LIMIT).ok()?;
    tell(rt, "read", start)?;
    let text = answer(rt, input.as_slice())?;
    let start = now(rt)?;
    let mut sink = WriterSink::new(rt.stdout());
    write_whole(&mut sink, text.as_bytes()).ok()?;
    tell(rt, "write", start)
}

// Whether there is a word.
fn is_asked(rt: &HostRuntime) -> io::Result<bool> {
    let mut words = env::args(rt)?;
    let _program = words.next();
    Ok(words.next().is_some())
}

fn main(rt: HostRuntime) -> ExitCode {
    let Ok(true) = is_asked(&rt) else {
        return ExitCode::SUCCESS;
    };
    match mangle(&rt) {
        Some(()) => ExitCode::SUCCESS,
        None => ExitCode::FAILURE,
    }
}
