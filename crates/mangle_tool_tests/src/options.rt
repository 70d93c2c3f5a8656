//! Answers under options: the root, kept names, reserved and readable names, and the pretty layout.

use crate::names::names_in;
use crate::programs::{A_FUNCTION_OF_A_SCRIPT, A_SHADOWED_NAME_OF_A_FUNCTION};
use crate::samples::{EMPTY_MODULE, PRETTY_ANSWER};
use mangle_tool::estree::{
    CompactStr, Layout, MangleError, MangleOptions, MangleOptionsKeepNames, mangle_estree,
};
use std::alloc::{AllocError, Global};
use std::test::Fail;

// The module `let alpha = 1; let beta = 2; beta; beta; alpha`.
const ALPHA_AND_BETA: &str =
    "{\"type\":\"Program\",\"body\":[{\"type\":\"VariableDeclaration\",\"kind\":\"let\",\"declarations\":[{\"type\":\"VariableDeclarator\",\"id\":{\"type\":\"Identifier\",\"name\":\"alpha\"},\"init\":{\"type\":\"Literal\",\"value\":1,\"raw\":\"1\"}}]},{\"type\":\"VariableDeclaration\",\"kind\":\"let\",\"declarations\":[{\"type\":\"VariableDeclarator\",\"id\":{\"type\":\"Identifier\",\"name\":\"beta\"},\"init\":{\"type\":\"Literal\",\"value\":2,\"raw\":\"2\"}}]},{\"type\":\"ExpressionStatement\",\"expression\":{\"type\":\"Identifier\",\"name\":\"beta\"}},{\"type\":\"ExpressionStatement\",\"expression\":{\"type\":\"Identifier\",\"name\":\"beta\"}},{\"type\":\"ExpressionStatement\",\"expression\":{\"type\":\"Identifier\",\"name\":\"alpha\"}}],\"sourceType\":\"module\"}";

// The characters that begin names, but for `$`.
const LETTERS: &str =
    "e t n r i a o s c l u d f p m h g _ v y b x S C w T E D O k A j M N P F I L R z B V H U W G K q J Y X Z Q";

// The names in the answer to a program under these options.
fn names_under(alloc: Global, options: &MangleOptions, input: &str) -> Result<String, MangleError> {
    let text = mangle_estree(alloc, input.as_bytes(), options, Layout::Compact)?;
    Ok(names_in(alloc, text.as_str())?)
}

#[test]
fn the_root_of_a_script_is_renamed_if_asked(rt: HostRuntime) -> Result<(), Fail> {
    let mut options = MangleOptions::new(rt.alloc());
    options.top_level = Some(true);
    let names = names_under(rt.alloc(), &options, A_FUNCTION_OF_A_SCRIPT)?;
    assert!(rt; names.as_str() == "e e e ");
    Ok(())
}

#[test]
fn functions_keep_their_names_if_asked(rt: HostRuntime) -> Result<(), Fail> {
    let mut options = MangleOptions::new(rt.alloc());
    options.keep_names = MangleOptionsKeepNames {
        function: true,
        class: false,
    };
    let names = names_under(rt.alloc(), &options, A_SHADOWED_NAME_OF_A_FUNCTION)?;
    assert!(rt; names.as_str() == "f e e ");
    Ok(())
}

// Options by which each of these names is reserved.
fn with_reserved(alloc: Global, names: &str) -> Result<MangleOptions, AllocError> {
    let mut options = MangleOptions::new(alloc);
    for name in names.split(' ') {
        options.reserved.insert(CompactStr::new(alloc, name)?)?;
    }
    Ok(options)
}

#[test]
fn reserved_names_are_not_given(rt: HostRuntime) -> Result<(), Fail> {
    let options = with_reserved(rt.alloc(), LETTERS)?;
    let names = names_under(rt.alloc(), &options, ALPHA_AND_BETA)?;
    assert!(rt; names.as_str() == "ee $ $ $ ee ");
    Ok(())
}

#[test]
fn readable_names_are_given_if_asked(rt: HostRuntime) -> Result<(), Fail> {
    let mut options = MangleOptions::new(rt.alloc());
    options.debug = true;
    let names = names_under(rt.alloc(), &options, ALPHA_AND_BETA)?;
    assert!(rt; names.as_str() == "slot_0 slot_1 slot_1 slot_1 slot_0 ");
    Ok(())
}

#[test]
fn answers_are_pretty_if_asked(rt: HostRuntime) -> Result<(), Fail> {
    let options = MangleOptions::new(rt.alloc());
    let text = mangle_estree(
        rt.alloc(),
        EMPTY_MODULE.as_bytes(),
        &options,
        Layout::Pretty,
    )?;
    assert!(rt; text.as_str() == PRETTY_ANSWER);
    Ok(())
}
