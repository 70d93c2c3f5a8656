//! Inputs and their answers: what is wrapped, what is no JSON, what nests too deeply.

use crate::samples::{
    EMPTY_ANSWER, EMPTY_MODULE, ESCAPES, ESCAPES_ANSWER, LET_ANSWER, LET_MODULE, usual_answer,
};
use mangle_tool::estree::{Layout, MangleError, MangleOptions, mangle_value};
use serde_json::Value;
use std::alloc::{AllocError, Global};
use std::test::Fail;

#[test]
fn answers_are_read_again(rt: HostRuntime) -> Result<(), Fail> {
    for (input, answer) in [
        (EMPTY_MODULE, EMPTY_ANSWER),
        (EMPTY_ANSWER, EMPTY_ANSWER),
        (LET_MODULE, LET_ANSWER),
        (LET_ANSWER, LET_ANSWER),
        (ESCAPES, ESCAPES_ANSWER),
        (
            "{\"fixes\":[0,{\"a\":null}],\"node\":{\"type\":\"Program\",\"body\":[],\"sourceType\":\"module\"}}",
            EMPTY_ANSWER,
        ),
    ] {
        let text = usual_answer(rt.alloc(), input.as_bytes())?;
        assert!(rt; text.as_str() == answer, "of {input}");
    }
    Ok(())
}

#[test]
fn other_wraps_are_refused(rt: HostRuntime) {
    for (input, error) in [
        ("{\"node\":null,\"fixes\":[]}", MangleError::BadTree),
        ("{\"fixes\":[]}", MangleError::BadTree),
        (
            "{\"node\":{\"type\":\"Program\",\"body\":[],\"sourceType\":\"module\"},\"fixes\":null}",
            MangleError::BadTree,
        ),
        (
            "{\"node\":{\"type\":\"Program\",\"body\":[],\"sourceType\":\"module\"},\"fixes\":[],\"loc\":null}",
            MangleError::BadTree,
        ),
        (
            "{\"node\":{\"node\":{\"type\":\"Program\",\"body\":[],\"sourceType\":\"module\"},\"fixes\":[]},\"fixes\":[]}",
            MangleError::BadTree,
        ),
        ("{\"node\":", MangleError::NotJson),
    ] {
        let answer = usual_answer(rt.alloc(), input.as_bytes());
        assert!(rt; answer.err() == Some(error), "of {input}");
    }
}

#[test]
fn values_are_answered_alike(rt: HostRuntime) -> Result<(), Fail> {
    let value = Value::from_str(rt.alloc(), EMPTY_ANSWER)?;
    let options = MangleOptions::new(rt.alloc());
    let text = mangle_value(rt.alloc(), &value, &options, Layout::Compact)?;
    assert!(rt; text.as_str() == EMPTY_ANSWER);
    Ok(())
}

// Arrays in one another.
fn nested(alloc: Global, levels: usize) -> Result<String, AllocError> {
    let mut text = "[".repeat(alloc, levels)?;
    text.push_str("]".repeat(alloc, levels)?.as_str())?;
    Ok(text)
}

#[test]
fn nesting_has_a_limit(rt: HostRuntime) -> Result<(), Fail> {
    for (levels, error) in [(127, MangleError::BadTree), (128, MangleError::NotJson)] {
        let input = nested(rt.alloc(), levels)?;
        let answer = usual_answer(rt.alloc(), input.as_bytes());
        assert!(rt; answer.err() == Some(error), "of {levels} arrays");
    }
    Ok(())
}
