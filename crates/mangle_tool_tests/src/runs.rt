//! How runs end: by their input, and by the call of a source or a sink that fails.

use crate::samples::{EMPTY_ANSWER, EMPTY_MODULE, LET_MODULE};
use crate::words::end_by_words;
use mangle_tool::memory::{MemorySink, MemorySource, SliceSource};
use mangle_tool::run::run;
use mangle_tool::status::Status;
use std::alloc::{AllocError, Global};
use std::test::Fail;

// A module that declares a name twice, by `let`.
const TWICE_DECLARED: &str =
    "{\"type\":\"Program\",\"body\":[{\"type\":\"VariableDeclaration\",\"kind\":\"let\",\"declarations\":[{\"type\":\"VariableDeclarator\",\"id\":{\"type\":\"Identifier\",\"name\":\"x\"}},{\"type\":\"VariableDeclarator\",\"id\":{\"type\":\"Identifier\",\"name\":\"x\"}}]}],\"sourceType\":\"module\"}";

#[test]
fn runs_end_by_their_input(rt: HostRuntime) -> Result<(), Fail> {
    for (input, status, written) in [
        (EMPTY_MODULE, Status::Done, EMPTY_ANSWER),
        ("{\"type\":", Status::NotJson, ""),
        ("null", Status::BadTree, ""),
        (TWICE_DECLARED, Status::BadScope, ""),
    ] {
        let (ended, text) = end_by_words(rt.alloc(), "", input)?;
        assert!(rt; ended == status && text.as_str() == written, "of {input}");
    }
    Ok(())
}

// How a run ends over the first bytes of a module, if there are so many and nothing is written.
fn end_of_beginning(alloc: Global, end: usize) -> Result<Option<Status>, Fail> {
    let Some(input) = LET_MODULE.get(..end) else {
        return Ok(None);
    };
    let (ended, text) = end_by_words(alloc, "", input)?;
    Ok(text.is_empty().then_some(ended))
}

#[test]
fn beginnings_are_not_json(rt: HostRuntime) -> Result<(), Fail> {
    for end in 0..LET_MODULE.len() {
        let ended = end_of_beginning(rt.alloc(), end)?;
        assert!(rt; ended == Some(Status::NotJson), "of {end} bytes");
    }
    Ok(())
}

// How a run ends over the empty module in pieces of 8 bytes, if this call fails, where nothing is written.
fn end_by_read(alloc: Global, call: u64) -> Result<Option<Status>, AllocError> {
    let fails = [call];
    let mut source = MemorySource::new(EMPTY_MODULE.as_bytes(), 8, &fails);
    let mut sink = MemorySink::with_room(alloc, 106, 106, &[])?;
    let ended = run(alloc, &[], &mut source, &mut sink);
    Ok(sink.bytes().is_empty().then_some(ended))
}

#[test]
fn runs_end_by_a_failing_read(rt: HostRuntime) -> Result<(), Fail> {
    // Eleven calls give 8 bytes each, but for the last, which gives 4; the twelfth finds the end, and there is no
    // further one to fail.
    for call in 0..13 {
        let ended = end_by_read(rt.alloc(), call)?;
        assert!(rt;
            ended == (call < 12).then_some(Status::ReadFault),
            "in call {call}"
        );
    }
    Ok(())
}

// Whether a run over the empty module ends so, with so many bytes of its answer in a sink that has so much room,
// takes 16 bytes in a call, and fails in this one.
fn ends_by_write(
    alloc: Global,
    (room, call): (usize, u64),
    status: Status,
    held: usize,
) -> Result<bool, AllocError> {
    let fails = [call];
    let mut source = SliceSource::new(EMPTY_MODULE.as_bytes());
    let mut sink = MemorySink::with_room(alloc, room, 16, &fails)?;
    let ended = run(alloc, &[], &mut source, &mut sink);
    Ok(ended == status && Some(sink.bytes()) == EMPTY_ANSWER.as_bytes().get(..held))
}

#[test]
fn runs_end_by_a_failing_write(rt: HostRuntime) -> Result<(), Fail> {
    // Seven calls take 16 bytes each, but for the last, which takes 10; the eighth settles them.
    for (room, call, status, held) in [
        (106, 0, Status::WriteFault, 0),
        (106, 1, Status::WriteFault, 16),
        (106, 2, Status::WriteFault, 32),
        (106, 3, Status::WriteFault, 48),
        (106, 4, Status::WriteFault, 64),
        (106, 5, Status::WriteFault, 80),
        (106, 6, Status::WriteFault, 96),
        (106, 7, Status::WriteFault, 106),
        (40, 99, Status::WriteFault, 40),
        (106, 99, Status::Done, 106),
    ] {
        assert!(rt;
            ends_by_write(rt.alloc(), (room, call), status, held)?,
            "room {room}, call {call}"
        );
    }
    Ok(())
}
