//! The commands `map` and `restore`, and runs through them.

use mangle_tool::estree::CompactStr;
use mangle_tool::memory::{MemorySink, SliceSource};
use mangle_tool::status::Status;
use std::alloc::{AllocError, Global};
use std::test::Fail;
use tool_commands::run_tool::run_tool;
use tool_commands::tool_status::{ToolStatus, tool_line};

// The module `let x = 1; ({ x })`.
const A_SHORTHAND: &str =
    "{\"type\":\"Program\",\"body\":[{\"type\":\"VariableDeclaration\",\"kind\":\"let\",\"declarations\":[{\"type\":\"VariableDeclarator\",\"id\":{\"type\":\"Identifier\",\"name\":\"x\"},\"init\":{\"type\":\"Literal\",\"value\":1,\"raw\":\"1\"}}]},{\"type\":\"ExpressionStatement\",\"expression\":{\"type\":\"ObjectExpression\",\"properties\":[{\"type\":\"Property\",\"kind\":\"init\",\"key\":{\"type\":\"Identifier\",\"name\":\"x\"},\"value\":{\"type\":\"Identifier\",\"name\":\"x\"},\"shorthand\":true}]}}],\"sourceType\":\"module\"}";

// Its map.
const MAP: &str = "\n,\"map\":{\"names\":[[0,\"x\"],[2,\"x\"]],\"marks\":[0]}}";

// How a run by these words ends, and what it writes.
pub(crate) fn end(alloc: Global, line: &str, input: &str) -> Result<(ToolStatus, String), Fail> {
    let mut words = Vec::new(alloc);
    if !line.is_empty() {
        for word in line.split(' ') {
            words.push(CompactStr::new(alloc, word)?)?;
        }
    }
    let mut source = SliceSource::new(input.as_bytes());
    let mut sink = MemorySink::with_room(alloc, 4000, 4000, &[])?;
    let status = run_tool(alloc, words.as_slice(), &mut source, &mut sink);
    Ok((status, String::from_utf8_lossy(alloc, sink.bytes())?))
}

fn written(alloc: Global, line: &str, input: &str) -> Result<String, Fail> {
    let (_, text) = end(alloc, line, input)?;
    Ok(text)
}

// What a run answers, with the old names and the mark.
fn old_answer(alloc: Global) -> Result<String, Fail> {
    let answer = written(alloc, "", A_SHORTHAND)?;
    let named = answer
        .as_str()
        .replace(alloc, "\"name\":\"e\"", "\"name\":\"x\"")?;
    Ok(
        named
            .as_str()
            .replace(alloc, "\"shorthand\":false", "\"shorthand\":true")?,
    )
}

#[test]
fn a_map_is_written(rt: HostRuntime) -> Result<(), Fail> {
    let text = written(rt.alloc(), "map", A_SHORTHAND)?;
    assert!(rt; text.ends_with(MAP));
    Ok(())
}

#[test]
fn a_renaming_is_undone(rt: HostRuntime) -> Result<(), Fail> {
    let text = written(rt.alloc(), "map --reserve t --debug", A_SHORTHAND)?;
    let restored = written(rt.alloc(), "restore", text.as_str())?;
    assert!(rt; restored.as_str() == old_answer(rt.alloc())?.as_str());
    Ok(())
}

// Whether the output of `map`, with one part of it replaced, is restored to this status.
fn restored_as(alloc: Global, part: &str, by: &str) -> Result<ToolStatus, Fail> {
    let text = written(alloc, "map", A_SHORTHAND)?;
    let changed = text.as_str().replacen(alloc, part, by, 1)?;
    let (status, _) = end(alloc, "restore", changed.as_str())?;
    Ok(status)
}

#[test]
fn other_maps_are_refused(rt: HostRuntime) -> Result<(), Fail> {
    for (part, by, status) in [
        ("[0]", "[0]", ToolStatus::Base(Status::Done)),
        ("[0]", "[]", ToolStatus::Base(Status::Done)),
        // a Property that isn't there, and one that is marked twice
        ("[0]", "[1]", ToolStatus::BadMap),
        ("[0]", "[0,0]", ToolStatus::BadMap),
        // a plain place, one past the end, numbers that don't rise, a text that is no name
        ("[2,\"x\"]", "[1,\"x\"]", ToolStatus::BadMap),
        ("[2,\"x\"]", "[3,\"x\"]", ToolStatus::BadMap),
        (
            "[[0,\"x\"],[2,\"x\"]]",
            "[[2,\"x\"],[0,\"x\"]]",
            ToolStatus::BadMap,
        ),
        ("[2,\"x\"]", "[2,\"a-b\"]", ToolStatus::BadMap),
        // what is no map, no program, or neither alone
        ("[0]", "null", ToolStatus::Base(Status::BadTree)),
        (
            "\"sourceType\"",
            "\"sourcetype\"",
            ToolStatus::Base(Status::BadTree),
        ),
        (
            "{\"node\"",
            "{\"fixes\":[],\"node\"",
            ToolStatus::Base(Status::BadTree),
        ),
        ("{\"node\"", "{\"node\"}", ToolStatus::Base(Status::NotJson)),
    ] {
        let ended = restored_as(rt.alloc(), part, by)?;
        assert!(rt; ended == status, "{part} as {by}");
    }
    Ok(())
}

#[test]
fn other_words_are_bad_arguments(rt: HostRuntime) -> Result<(), Fail> {
    for line in [
        "map --pretty",
        "map --make 1",
        "map --reserve",
        "map map",
        "restore --debug",
        "--debug map",
        "Restore",
    ] {
        let (status, text) = end(rt.alloc(), line, A_SHORTHAND)?;
        assert!(rt;
            status == ToolStatus::Base(Status::BadArgument) && text.is_empty(),
            "by {line}"
        );
    }
    Ok(())
}

#[test]
fn statuses_have_numbers_and_lines(rt: HostRuntime) {
    let done = ToolStatus::Base(Status::Done);
    assert!(rt; done.number() == 0 && tool_line(done) == "");
    let bad = ToolStatus::BadMap;
    assert!(rt; bad.number() == 11 && tool_line(bad) == "mangle: bad map");
}
