//! The program `mangle`: what its words ask for, from standard input to standard output.
#![tactic(auto)]

use mangle_tool::adapters::{ReaderSource, WriterSink};
use mangle_tool::estree::CompactStr;
use mangle_tool::status::Status;
use std::alloc::Global;
use std::env::{self, Args};
use std::io::{self, ErrorKind};
use std::process::ExitCode;
use tool_commands::run_tool::run_tool;
use tool_commands::tool_status::{ToolStatus, tool_line};

// The most bytes that a word may have.
const LONGEST_WORD: usize = 0xFFFF_FFFF;

// Why there is no list of words.
#[derive(Clone, Copy)]
enum NoWords {
    // A word is no text, or too long.
    Unreadable,
    // Memory ran out.
    Memory,
}

fn main(rt: HostRuntime) -> ExitCode {
    let (line, number) = match words_of(rt.alloc(), env::args(&rt)) {
        Ok(words) => {
            let mut source = ReaderSource::new(rt.stdin());
            let mut sink = WriterSink::new(rt.stdout());
            let status = run_tool(rt.alloc(), words.as_slice(), &mut source, &mut sink);
            (tool_line(status), status.number())
        }
        Err(NoWords::Unreadable) => ("mangle: unreadable word", 1),
        Err(NoWords::Memory) => {
            let status = ToolStatus::Base(Status::Memory);
            (tool_line(status), status.number())
        }
    };
    if !line.is_empty() {
        let _ = eprintln!(rt; "{line}");
    }
    ExitCode::from(number)
}

// The words after the program's name.
fn words_of(alloc: Global, args: io::Result<Args>) -> Result<Vec<CompactStr>, NoWords> {
    let args = match args {
        Ok(args) => args,
        Err(error) if error.kind() == ErrorKind::OutOfMemory => return Err(NoWords::Memory),
        Err(_) => return Err(NoWords::Unreadable),
    };
    let mut words = Vec::new(alloc);
    let mut is_name = true;
    for word in args {
        if is_name {
            is_name = false;
        } else if word.len() > LONGEST_WORD {
            return Err(NoWords::Unreadable);
        } else if words.push(CompactStr::from_string(word)).is_err() {
            return Err(NoWords::Memory);
        }
    }
    Ok(words)
}
