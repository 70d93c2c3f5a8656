//! Inputs that are made.

use made_input::{made_texts_are_read, make_input};
use std::alloc::{AllocError, Global};
use std::test::Fail;

const ONE_FUNCTION: &str =
    "{\"type\":\"Program\",\"start\":0,\"end\":0,\"body\":[{\"type\":\"FunctionDeclaration\",\"start\":0,\"end\":0,\"id\":{\"type\":\"Identifier\",\"start\":0,\"end\":0,\"name\":\"f0\"},\"generator\":false,\"async\":false,\"params\":[{\"type\":\"Identifier\",\"start\":0,\"end\":0,\"name\":\"a\"}],\"body\":{\"type\":\"BlockStatement\",\"start\":0,\"end\":0,\"body\":[{\"type\":\"ReturnStatement\",\"start\":0,\"end\":0,\"argument\":{\"type\":\"CallExpression\",\"start\":0,\"end\":0,\"callee\":{\"type\":\"Identifier\",\"start\":0,\"end\":0,\"name\":\"f0\"},\"arguments\":[{\"type\":\"Identifier\",\"start\":0,\"end\":0,\"name\":\"a\"}],\"optional\":false}}]},\"expression\":false}],\"sourceType\":\"module\",\"hashbang\":null}";

// How many bytes the input of so many functions has.
fn made_length(alloc: Global, functions: u32) -> Result<usize, AllocError> {
    if functions < 1 || functions > 2_000 {
        return Ok(0);
    }
    Ok(make_input(alloc, functions)?.len())
}

#[test]
fn made_inputs_have_the_stated_lengths(rt: HostRuntime) -> Result<(), Fail> {
    for (functions, length) in [(1, 605), (200, 105_063), (2_000, 1_053_863)] {
        assert!(rt;
            made_length(rt.alloc(), functions)? == length,
            "of {functions}"
        );
    }
    Ok(())
}

#[test]
fn one_function_is_made(rt: HostRuntime) -> Result<(), Fail> {
    let text = make_input(rt.alloc(), 1)?;
    assert!(rt; text.as_str() == ONE_FUNCTION);
    made_texts_are_read();
    Ok(())
}
