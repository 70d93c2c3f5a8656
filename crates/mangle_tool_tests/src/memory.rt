//! Reading whole from memory and writing whole into it, where calls fail and where there is no room.

use crate::samples::TEXT;
use mangle_tool::memory::{MemorySink, MemorySource, SliceSource};
use mangle_tool::read_all::{ReadAllError, read_all};
use mangle_tool::source::Failed;
use mangle_tool::write_whole::write_whole;
use std::alloc::{AllocError, Global};
use std::test::Fail;

// Whether all of `text`, of at most 8 bytes, is read, or else with this error not.
fn is_read(alloc: Global, text: &str, error: Option<ReadAllError>) -> bool {
    match read_all(alloc, &mut SliceSource::new(text.as_bytes()), 8) {
        Ok(bytes) => error.is_none() && bytes.as_slice() == text.as_bytes(),
        Err(e) => error == Some(e),
    }
}

#[test]
fn reads_up_to_the_limit(rt: HostRuntime) {
    for (text, error) in [
        ("", None),
        ("12345678", None),
        ("123456789", Some(ReadAllError::TooLong)),
    ] {
        assert!(rt; is_read(rt.alloc(), text, error), "of {text}");
    }
}

fn read(alloc: Global, source: &mut MemorySource<'_>) -> Result<Vec<u8>, ReadAllError> {
    read_all(alloc, source, 100)
}

const LETTERS: &str = "abcdefghijklmnopqrst";

// Whether reading the letters in pieces of 8 bytes, where this call fails, fails once if it is to, and this is read
// then.
fn is_read_on(alloc: Global, call: u64, failed: bool, rest: &str) -> Result<bool, ReadAllError> {
    let fails = [call];
    let mut source = MemorySource::new(LETTERS.as_bytes(), 8, &fails);
    match read(alloc, &mut source) {
        Ok(bytes) => Ok(!failed && bytes.as_slice() == rest.as_bytes()),
        Err(ReadAllError::Failed) => {
            let bytes = read(alloc, &mut source)?;
            Ok(failed && bytes.as_slice() == rest.as_bytes())
        }
        Err(error) => Err(error),
    }
}

#[test]
fn a_source_fails_in_the_listed_calls(rt: HostRuntime) -> Result<(), Fail> {
    // Three calls give 8, 8 and 4 bytes, and the fourth finds the end.
    for (call, failed, rest) in [
        (0, true, LETTERS),
        (1, true, "ijklmnopqrst"),
        (2, true, "qrst"),
        (3, true, ""),
        (4, false, LETTERS),
    ] {
        assert!(rt; is_read_on(rt.alloc(), call, failed, rest)?, "call {call}");
    }
    Ok(())
}

// Whether writing `TEXT` in pieces of 16 bytes ends so, and leaves these bytes, where there is so much room
// and this call fails.
fn is_written(
    alloc: Global,
    (room, call): (usize, u64),
    outcome: Result<(), Failed>,
    held: &str,
) -> Result<bool, AllocError> {
    let fails = [call];
    let mut sink = MemorySink::with_room(alloc, room, 16, &fails)?;
    let written = write_whole(&mut sink, TEXT);
    Ok(written == outcome && sink.bytes() == held.as_bytes())
}

#[test]
fn a_sink_fails_in_the_listed_calls_and_where_it_is_full(rt: HostRuntime) -> Result<(), Fail> {
    // Two writes take 16 and 11 bytes, and the third call settles them.
    for (room, call, outcome, held) in [
        (100, 3, Ok(()), "{\"node\":\n{\"type\":\"Program\"}"),
        (100, 0, Err(Failed), ""),
        (100, 1, Err(Failed), "{\"node\":\n{\"type\""),
        (100, 2, Err(Failed), "{\"node\":\n{\"type\":\"Program\"}"),
        (9, 3, Err(Failed), "{\"node\":\n"),
    ] {
        assert!(rt;
            is_written(rt.alloc(), (room, call), outcome, held)?,
            "room {room}, call {call}"
        );
    }
    Ok(())
}
