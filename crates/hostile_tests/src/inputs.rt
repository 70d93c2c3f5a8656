//! Inputs that are no text, no JSON, or stretched.

use crate::trees::error_of;
use mangle_tool::estree::MangleError;
use std::alloc::{AllocError, Global};
use std::test::Fail;

const MODULE: &[u8] = b"{\"type\":\"Program\",\"body\":[],\"sourceType\":\"module\"}";

// Why the module has no answer, where these bytes stand before it.
fn error_after(alloc: Global, front: &[u8]) -> Result<Option<MangleError>, AllocError> {
    let mut input = Vec::from_slice(alloc, front)?;
    input.extend_from_slice(MODULE)?;
    Ok(error_of(alloc, input.as_slice()))
}

#[test]
fn a_byte_order_mark_is_no_json(rt: HostRuntime) -> Result<(), Fail> {
    for (front, error) in [
        (&b""[..], None),
        (&b" \t\r\n"[..], None),
        (&b"\xef\xbb\xbf"[..], Some(MangleError::NotJson)),
        (&b"\xfe\xff"[..], Some(MangleError::NotJson)),
        (&b"\x00"[..], Some(MangleError::NotJson)),
        (&b"\xc2\xa0"[..], Some(MangleError::NotJson)),
    ] {
        assert!(rt;
            error_after(rt.alloc(), front)? == error,
            "after {} bytes",
            front.len()
        );
    }
    Ok(())
}

// Why a module of one string has no answer, which has these bytes between its quotation marks.
fn error_of_string(alloc: Global, content: &[u8]) -> Result<Option<MangleError>, AllocError> {
    let mut input = Vec::from_slice(
        alloc,
        b"{\"type\":\"Program\",\"body\":[{\"type\":\"ExpressionStatement\",\"expression\":{\"type\":\"Literal\",\"value\":\"",
    )?;
    input.extend_from_slice(content)?;
    input.extend_from_slice(b"\"}}],\"sourceType\":\"module\"}")?;
    Ok(error_of(alloc, input.as_slice()))
}

#[test]
fn strings_are_texts(rt: HostRuntime) -> Result<(), Fail> {
    for content in [
        &b""[..],
        b"\xc3\xa9",
        b"\xf0\x9f\x8d\x84",
        b"\\ud83c\\udf44",
        b"\\u0000\\u001f\\b\\f\\n\\r\\t\\/\\\\\\\"",
    ] {
        let error = error_of_string(rt.alloc(), content)?;
        assert!(rt; error.is_none(), "of {} bytes", content.len());
    }
    Ok(())
}

#[test]
fn bytes_that_are_no_text_are_no_json(rt: HostRuntime) -> Result<(), Fail> {
    // A byte that begins nothing, one that goes nothing on, a character cut off, one in too many bytes, a
    // surrogate, what lies past the last character, surrogates alone as escapes, other escapes, a control character.
    for content in [
        &b"\xff"[..],
        b"\x80",
        b"\xc3",
        b"\xc0\xaf",
        b"\xed\xa0\x80",
        b"\xf4\x90\x80\x80",
        b"\\ud83c",
        b"\\udf44",
        b"\\udf44\\ud83c",
        b"\\ud83cx",
        b"\\x41",
        b"\\u12g4",
        b"\\u{41}",
        b"\n",
    ] {
        let error = error_of_string(rt.alloc(), content)?;
        assert!(rt;
            error == Some(MangleError::NotJson),
            "of {} bytes",
            content.len()
        );
    }
    Ok(())
}

// Why a module has no answer whose body is this, repeated with commas between.
fn error_of_many(
    alloc: Global,
    item: &str,
    count: usize,
) -> Result<Option<MangleError>, AllocError> {
    let mut input = String::from_str(
        alloc,
        "{\"type\":\"Program\",\"sourceType\":\"module\",\"body\":[",
    )?;
    for i in 0..count {
        input.push_str(if i > 0 { "," } else { "" })?;
        input.push_str(item)?;
    }
    input.push_str("]}")?;
    Ok(error_of(alloc, input.as_bytes()))
}

#[test]
fn wide_lists_are_taken(rt: HostRuntime) -> Result<(), Fail> {
    for (item, error) in [
        ("{\"type\":\"EmptyStatement\"}", None),
        ("null", Some(MangleError::BadTree)),
        ("[]", Some(MangleError::BadTree)),
        ("{}", Some(MangleError::BadTree)),
        ("1e400", Some(MangleError::NotJson)),
    ] {
        assert!(rt;
            error_of_many(rt.alloc(), item, 20_000)? == error,
            "of {item}"
        );
    }
    Ok(())
}

// Why a module has no answer whose only statement is `a` after so many `!`.
fn error_of_deep(alloc: Global, depth: usize) -> Result<Option<MangleError>, AllocError> {
    let mut input = String::from_str(
        alloc,
        "{\"type\":\"Program\",\"sourceType\":\"module\",\"body\":[{\"type\":\"ExpressionStatement\",\"expression\":",
    )?;
    for _ in 0..depth {
        input.push_str(
            "{\"type\":\"UnaryExpression\",\"operator\":\"!\",\"prefix\":true,\"argument\":",
        )?;
    }
    input.push_str("{\"type\":\"Identifier\",\"name\":\"a\"}")?;
    for _ in 0..depth {
        input.push_str("}")?;
    }
    input.push_str("}]}")?;
    Ok(error_of(alloc, input.as_bytes()))
}

#[test]
fn deep_trees_are_taken_up_to_127_levels(rt: HostRuntime) -> Result<(), Fail> {
    // The program, its body, the statement and the name are four levels more.
    for (depth, error) in [(123, None), (124, Some(MangleError::NotJson))] {
        assert!(rt;
            error_of_deep(rt.alloc(), depth)? == error,
            "of {depth} levels"
        );
    }
    Ok(())
}

// Why a module has no answer that reads a name of so many letters.
fn error_of_long(alloc: Global, length: usize) -> Result<Option<MangleError>, AllocError> {
    let name = "a".repeat(alloc, length)?;
    let name = name.as_str();
    let input = format!(in alloc;
        "{{\"type\":\"Program\",\"sourceType\":\"module\",\"body\":[{{\"type\":\"ExpressionStatement\",\"expression\":{{\"type\":\"Identifier\",\"name\":\"{name}\"}}}}]}}"
    )?;
    Ok(error_of(alloc, input.as_bytes()))
}

#[test]
fn long_names_are_taken(rt: HostRuntime) -> Result<(), Fail> {
    assert!(rt; error_of_long(rt.alloc(), 1_000_000)?.is_none());
    assert!(rt; error_of_long(rt.alloc(), 0)? == Some(MangleError::BadTree));
    Ok(())
}
