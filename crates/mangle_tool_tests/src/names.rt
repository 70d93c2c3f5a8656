//! Programs of one scope, told by words: which names they get, and which of them are refused.

use crate::samples::usual_answer;
use mangle_tool::estree::MangleError;
use std::alloc::{AllocError, Global};
use std::test::Fail;

const READ: &str =
    "{\"type\":\"ExpressionStatement\",\"expression\":{\"type\":\"Identifier\",\"name\":\"NAME\"}}";

const CALL: &str =
    "{\"type\":\"ExpressionStatement\",\"expression\":{\"type\":\"CallExpression\",\"callee\":{\"type\":\"Identifier\",\"name\":\"NAME\"},\"arguments\":[]}}";

const DECLARATION: &str =
    "{\"type\":\"VariableDeclaration\",\"kind\":\"FORM\",\"declarations\":[{\"type\":\"VariableDeclarator\",\"id\":{\"type\":\"Identifier\",\"name\":\"NAME\"}}]}";

const DEFINITION: &str =
    "{\"type\":\"VariableDeclaration\",\"kind\":\"FORM\",\"declarations\":[{\"type\":\"VariableDeclarator\",\"id\":{\"type\":\"Identifier\",\"name\":\"NAME\"},\"init\":{\"type\":\"Identifier\",\"name\":\"VALUE\"}}]}";

const PROGRAM: &str = "{\"type\":\"Program\",\"body\":[BODY],\"sourceType\":\"TYPE\"}";

// A statement by a word: `read:x` and `call:x` are `x;` and `x();`, `let:x` and `let:x=y` are `let x;`
// and `let x = y;`, and so on for each kind of declaration.
fn statement(alloc: Global, word: &str) -> Result<String, AllocError> {
    let (form, name) = word.split_once(':').unwrap_or(("read", word));
    if form == "read" {
        return READ.replace(alloc, "NAME", name);
    }
    if form == "call" {
        return CALL.replace(alloc, "NAME", name);
    }
    match name.split_once('=') {
        Some((name, value)) => definition(alloc, form, name, value),
        None => declaration(alloc, form, name),
    }
}

fn declaration(alloc: Global, form: &str, name: &str) -> Result<String, AllocError> {
    let text = DECLARATION.replace(alloc, "FORM", form)?;
    text.as_str().replace(alloc, "NAME", name)
}

fn definition(alloc: Global, form: &str, name: &str, value: &str) -> Result<String, AllocError> {
    let text = DEFINITION.replace(alloc, "FORM", form)?;
    let text = text.as_str().replace(alloc, "VALUE", value)?;
    text.as_str().replace(alloc, "NAME", name)
}

fn statements(alloc: Global, words: &str) -> Result<String, AllocError> {
    let mut text = String::new(alloc);
    for word in words.split(' ') {
        if !text.is_empty() {
            text.push(',')?;
        }
        text.push_str(statement(alloc, word)?.as_str())?;
    }
    Ok(text)
}

// The program of these words.
fn program(alloc: Global, source_type: &str, words: &str) -> Result<String, AllocError> {
    let body = statements(alloc, words)?;
    let text = PROGRAM.replace(alloc, "BODY", body.as_str())?;
    text.as_str().replace(alloc, "TYPE", source_type)
}

// The names in a printed tree, with a blank behind each.
pub(crate) fn names_in(alloc: Global, text: &str) -> Result<String, AllocError> {
    let mut names = String::new(alloc);
    for part in text.split("\"name\":\"").skip(1) {
        if let Some((name, _)) = part.split_once('"') {
            names.push_str(name)?;
            names.push(' ')?;
        }
    }
    Ok(names)
}

// The names that the program of these words gets.
fn new_names(alloc: Global, source_type: &str, words: &str) -> Result<String, MangleError> {
    let input = program(alloc, source_type, words)?;
    let text = usual_answer(alloc, input.as_bytes())?;
    Ok(names_in(alloc, text.as_str())?)
}

#[test]
fn one_scope_is_mangled(rt: HostRuntime) -> Result<(), Fail> {
    for (source_type, words, names) in [
        ("module", "call:e let:x=t", "e n t "),
        ("module", "call:e call:t call:n let:x read:x", "e t n r r "),
        ("module", "let:first let:second read:second", "e t t "),
        ("module", "var:x const:y=x var:x", "e t e e "),
        ("module", "var:x var:x", "e e "),
        ("script", "let:x read:x", "x x "),
        ("commonjs", "let:x read:x", "e e "),
        ("module", "let:x call:eval", "x eval "),
        ("module", "let:x read:eval", "e eval "),
        ("module", "let:arguments let:x", "arguments e "),
    ] {
        let given = new_names(rt.alloc(), source_type, words)?;
        assert!(rt; given.as_str() == names, "of {words}");
    }
    Ok(())
}

#[test]
fn faults_and_other_trees_are_refused(rt: HostRuntime) {
    for (words, error) in [
        ("let:x let:x", MangleError::BadScope),
        ("let:x var:x", MangleError::BadScope),
        ("var:x const:x", MangleError::BadScope),
        ("let:a-b", MangleError::BadTree),
        ("lets:x", MangleError::BadTree),
    ] {
        let refused = new_names(rt.alloc(), "module", words);
        assert!(rt; refused.err() == Some(error), "of {words}");
    }
}
