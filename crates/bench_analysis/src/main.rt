//! A timing program: reads an ESTree in JSON from standard input and tells on standard error, a line a stage, how many
//! microseconds `serde_json` took to read it, and how many each stage of its analysis. Without words it does nothing.
#![tactic(auto)]

use class_tables::PrivateTable;
use scope_tables::ScopeTables;
use serde_json::Value;
use std::process::ExitCode;
use std::time::Instant;
use std::{env, io};
use tree_core::{Program, read_tree};

// Tells how long a stage took that began then.
fn tell(rt: &HostRuntime, stage: &str, start: Instant) -> io::Result<()> {
    let taken = start.elapsed(rt)?.as_micros();
    eprintln!(rt; "{} {}", stage, taken)
}

// Times the analysis, and answers whether the program has no fault.
fn time_analysis(rt: &HostRuntime, program: &Program) -> io::Result<bool> {
    let start = Instant::now(rt)?;
    let Ok(tables) = ScopeTables::build(rt.alloc(), program.root()) else {
        return Ok(false);
    };
    tell(rt, "tables", start)?;
    let start = Instant::now(rt)?;
    let Ok(_private) = PrivateTable::new(rt.alloc(), &tables.list) else {
        return Ok(false);
    };
    tell(rt, "private", start)?;
    Ok(!tables.has_fault())
}

// Times all stages, and answers whether the bytes are a program without fault.
fn time_all(rt: &HostRuntime, input: &[u8]) -> io::Result<bool> {
    let start = Instant::now(rt)?;
    let Ok(value) = Value::from_slice(rt.alloc(), input) else {
        return Ok(false);
    };
    tell(rt, "json", start)?;
    match read_tree(rt.alloc(), &value, 0) {
        Ok(program) => time_analysis(rt, &program),
        Err(_) => Ok(false),
    }
}

// Whether there is a word.
fn is_asked(rt: &HostRuntime) -> io::Result<bool> {
    let mut words = env::args(rt)?;
    let _program = words.next();
    Ok(words.next().is_some())
}

fn main(rt: HostRuntime) -> ExitCode {
    let Ok(true) = is_asked(&rt) else {
        return ExitCode::SUCCESS;
    };
    let Ok(input) = io::read_to_string(rt.alloc(), rt.stdin()) else {
        return ExitCode::FAILURE;
    };
    match time_all(&rt, input.as_bytes()) {
        Ok(true) => ExitCode::SUCCESS,
        _ => ExitCode::FAILURE,
    }
}
