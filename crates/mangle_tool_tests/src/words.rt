//! Runs by their words: options, `--make`, and words that aren't understood.

use crate::names::names_in;
use crate::programs::A_FUNCTION_OF_A_SCRIPT;
use crate::samples::{EMPTY_MODULE, PRETTY_ANSWER, usual_answer};
use made_input::make_input;
use mangle_tool::estree::{CompactStr, MangleError};
use mangle_tool::memory::{MemorySink, MemorySource, SliceSource};
use mangle_tool::run::run;
use mangle_tool::status::{Status, status_line};
use mangle_tool::words::{Command, Layout, WordError, read_words};
use std::alloc::{AllocError, Global};
use std::test::Fail;

// The words of a line, each behind a space but the first.
fn words_in(alloc: Global, line: &str) -> Result<Vec<CompactStr>, AllocError> {
    let mut words = Vec::new(alloc);
    if !line.is_empty() {
        for word in line.split(' ') {
            words.push(CompactStr::new(alloc, word)?)?;
        }
    }
    Ok(words)
}

// How a run by these words over this input ends, and what it writes.
pub(crate) fn end_by_words(
    alloc: Global,
    line: &str,
    input: &str,
) -> Result<(Status, String), Fail> {
    let words = words_in(alloc, line)?;
    let mut source = SliceSource::new(input.as_bytes());
    let mut sink = MemorySink::with_room(alloc, 2000, 2000, &[])?;
    let status = run(alloc, words.as_slice(), &mut source, &mut sink);
    Ok((status, String::from_utf8_lossy(alloc, sink.bytes())?))
}

// The names that a run by these words gives.
fn names_by_words(alloc: Global, line: &str) -> Result<String, Fail> {
    let (_, text) = end_by_words(alloc, line, A_FUNCTION_OF_A_SCRIPT)?;
    Ok(names_in(alloc, text.as_str())?)
}

#[test]
fn options_are_read_from_left_to_right(rt: HostRuntime) -> Result<(), Fail> {
    for (line, names) in [
        ("", "f e e "),
        ("--top-level", "e e e "),
        ("--no-top-level --top-level", "e e e "),
        ("--top-level --no-top-level", "f e e "),
        ("--top-level --keep-fn-names", "f e e "),
        ("--keep-class-names --top-level", "e e e "),
        ("--reserve e --reserve e", "f t t "),
        ("--reserve --debug", "f e e "),
        ("--debug", "f slot_0 slot_0 "),
    ] {
        let given = names_by_words(rt.alloc(), line)?;
        assert!(rt; given.as_str() == names, "by {line}");
    }
    Ok(())
}

#[test]
fn answers_are_pretty_by_a_word(rt: HostRuntime) -> Result<(), Fail> {
    let (_, text) = end_by_words(rt.alloc(), "--pretty", EMPTY_MODULE)?;
    assert!(rt; text.as_str() == PRETTY_ANSWER);
    Ok(())
}

// Whether words aren't understood, so that nothing is read, though the first read would fail.
fn is_bad_argument(alloc: Global, line: &str) -> Result<bool, AllocError> {
    let words = words_in(alloc, line)?;
    let mut source = MemorySource::new(EMPTY_MODULE.as_bytes(), 8, &[0]);
    let mut sink = MemorySink::with_room(alloc, 106, 106, &[])?;
    let status = run(alloc, words.as_slice(), &mut source, &mut sink);
    Ok(status == Status::BadArgument && sink.bytes().is_empty())
}

#[test]
fn other_words_are_bad_arguments(rt: HostRuntime) -> Result<(), Fail> {
    for line in [
        "--x",
        "e",
        "--reserve",
        "--pretty --reserve",
        "--reserve e e",
        "--make",
        "--make 0",
        "--make 01",
        "--make 2001",
        "--make 1x",
        "--make +1",
        "--make 12345678901",
        "--make 3 --pretty",
        "--pretty --make 3",
        "--make 3 --make 3",
    ] {
        assert!(rt; is_bad_argument(rt.alloc(), line)?, "by {line}");
    }
    Ok(())
}

// How a run that makes its input ends, and what it writes, where a read would fail.
fn end_of_making(alloc: Global, line: &str) -> Result<(Status, String), Fail> {
    let words = words_in(alloc, line)?;
    let mut source = MemorySource::new(b"", 8, &[0]);
    let mut sink = MemorySink::with_room(alloc, 100, 100, &[])?;
    let status = run(alloc, words.as_slice(), &mut source, &mut sink);
    Ok((status, String::from_utf8_lossy(alloc, sink.bytes())?))
}

#[test]
fn make_lengths(rt: HostRuntime) -> Result<(), Fail> {
    for (line, told) in [
        (
            "--make 1",
            "functions 1, input bytes 605, output bytes 625\n",
        ),
        (
            "--make 200",
            "functions 200, input bytes 105063, output bytes 104397\n",
        ),
    ] {
        let (status, text) = end_of_making(rt.alloc(), line)?;
        assert!(rt;
            status == Status::Done && text.as_str() == told,
            "by {line}"
        );
    }
    Ok(())
}

// How long the answer to a made input is.
fn answer_length(alloc: Global) -> Result<usize, MangleError> {
    let input = make_input(alloc, 200)?;
    Ok(usual_answer(alloc, input.as_bytes())?.len())
}

#[test]
fn a_made_input_is_answered(rt: HostRuntime) -> Result<(), Fail> {
    assert!(rt; answer_length(rt.alloc())? == 104_397);
    Ok(())
}

// What these words ask for: whether for an answer in the pretty layout, or how many functions.
fn asked(alloc: Global, line: &str) -> Result<(bool, u32), WordError> {
    let words = words_in(alloc, line)?;
    match read_words(alloc, words.as_slice())? {
        Command::Mangle(_, layout) => Ok((layout == Layout::Pretty, 0)),
        Command::Make(functions) => Ok((false, functions)),
    }
}

#[test]
fn words_are_read(rt: HostRuntime) {
    for (line, command) in [
        ("", Ok((false, 0))),
        ("--pretty", Ok((true, 0))),
        ("--make 2000", Ok((false, 2000))),
        ("--make 2001", Err(WordError::BadArgument)),
    ] {
        assert!(rt; asked(rt.alloc(), line) == command, "by {line}");
    }
}

#[test]
fn statuses_have_numbers_and_lines(rt: HostRuntime) {
    for (status, number, line) in [
        (Status::Done, 0, ""),
        (Status::BadArgument, 2, "mangle: bad argument"),
        (Status::NotJson, 3, "mangle: not JSON"),
        (Status::TooLarge, 4, "mangle: too large"),
        (Status::BadTree, 5, "mangle: bad tree"),
        (Status::BadScope, 6, "mangle: bad scope"),
        (Status::InputTooLong, 7, "mangle: input too long"),
        (Status::ReadFault, 8, "mangle: read fault"),
        (Status::WriteFault, 9, "mangle: write fault"),
        (Status::Memory, 10, "mangle: out of memory"),
    ] {
        assert!(rt; status.number() == number && status_line(status) == line);
    }
}
