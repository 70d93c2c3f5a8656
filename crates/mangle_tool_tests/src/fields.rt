//! The module with one field of one node left out, in turn: the first text of a row gives way to the second.

use crate::samples::LET_MODULE;
use crate::words::end_by_words;
use mangle_tool::status::Status;
use std::alloc::Global;
use std::test::Fail;

// Fields without which a node is none.
const NEEDED: [(&str, &str); 15] = [
    ("\"type\":\"Program\",", ""),
    (
        "\"body\":[{\"type\":\"VariableDeclaration\",\"start\":0,\"end\":10,\"declarations\":[{\"type\":\"VariableDeclarator\",\"start\":4,\"end\":9,\"id\":{\"type\":\"Identifier\",\"start\":4,\"end\":5,\"name\":\"x\"},\"init\":{\"type\":\"Literal\",\"start\":8,\"end\":9,\"value\":1,\"raw\":\"1\"}}],\"kind\":\"let\"},{\"type\":\"ExpressionStatement\",\"start\":11,\"end\":12,\"expression\":{\"type\":\"Identifier\",\"start\":11,\"end\":12,\"name\":\"x\"}}],",
        "",
    ),
    ("\"type\":\"VariableDeclaration\",", ""),
    (
        "\"declarations\":[{\"type\":\"VariableDeclarator\",\"start\":4,\"end\":9,\"id\":{\"type\":\"Identifier\",\"start\":4,\"end\":5,\"name\":\"x\"},\"init\":{\"type\":\"Literal\",\"start\":8,\"end\":9,\"value\":1,\"raw\":\"1\"}}],",
        "",
    ),
    ("\"type\":\"VariableDeclarator\",", ""),
    (
        "\"id\":{\"type\":\"Identifier\",\"start\":4,\"end\":5,\"name\":\"x\"},",
        "",
    ),
    ("\"type\":\"Identifier\",", ""),
    (",\"name\":\"x\"", ""),
    ("\"type\":\"Literal\",", ""),
    (",\"kind\":\"let\"", ""),
    ("\"type\":\"ExpressionStatement\",", ""),
    (
        ",\"expression\":{\"type\":\"Identifier\",\"start\":11,\"end\":12,\"name\":\"x\"}",
        "",
    ),
    ("\"type\":\"Identifier\",\"start\":11,", "\"start\":11,"),
    (",\"name\":\"x\"}}", "}}"),
    (",\"sourceType\":\"module\"", ""),
];

// Fields that have a value where they are left out.
const SPARE: [(&str, &str); 17] = [
    ("\"start\":0,", ""),
    ("\"end\":12,", ""),
    ("\"start\":0,\"end\":10,", "\"end\":10,"),
    ("\"end\":10,", ""),
    ("\"start\":4,", ""),
    ("\"end\":9,", ""),
    ("\"start\":4,\"end\":5,", "\"end\":5,"),
    ("\"end\":5,", ""),
    (
        ",\"init\":{\"type\":\"Literal\",\"start\":8,\"end\":9,\"value\":1,\"raw\":\"1\"}",
        "",
    ),
    ("\"start\":8,", ""),
    ("\"end\":9,\"value\"", "\"value\""),
    ("\"value\":1,", ""),
    (",\"raw\":\"1\"", ""),
    ("\"start\":11,", ""),
    ("\"end\":12,\"expression\"", "\"expression\""),
    ("\"start\":11,\"end\":12,\"name\"", "\"end\":12,\"name\""),
    ("\"end\":12,\"name\"", "\"name\""),
];

// How a run ends over the module with this change, if it is one, and what it writes.
fn end_with(alloc: Global, before: &str, after: &str) -> Result<(Option<Status>, String), Fail> {
    let input = LET_MODULE.replacen(alloc, before, after, 1)?;
    let (status, text) = end_by_words(alloc, "", input.as_str())?;
    Ok(((input.len() < LET_MODULE.len()).then_some(status), text))
}

#[test]
fn needed_fields_are_not_left_out(rt: HostRuntime) -> Result<(), Fail> {
    for (before, after) in NEEDED {
        let (status, text) = end_with(rt.alloc(), before, after)?;
        assert!(rt;
            status == Some(Status::BadTree) && text.is_empty(),
            "without {before}"
        );
    }
    Ok(())
}

#[test]
fn other_fields_may_be_left_out(rt: HostRuntime) -> Result<(), Fail> {
    for (before, after) in SPARE {
        let (status, _) = end_with(rt.alloc(), before, after)?;
        assert!(rt; status == Some(Status::Done), "without {before}");
    }
    Ok(())
}

#[test]
fn a_value_that_is_left_out_is_null(rt: HostRuntime) -> Result<(), Fail> {
    let (_, text) = end_with(rt.alloc(), "\"value\":1,", "")?;
    assert!(rt; text.contains("\"value\":null,\"raw\":\"1\""));
    Ok(())
}
