//! A timing program: reads JSON from standard input and writes it to standard output again, as the tree of a
//! program or as a value of `serde_json` alone. Without words it does nothing.
#![tactic(auto)]

use mangle_tool::adapters::{ReaderSource, WriterSink};
use mangle_tool::read_all::read_all;
use mangle_tool::run::INPUT_LIMIT;
use mangle_tool::write_whole::write_whole;
use oxc_estree::{CompactFormatter, ConfigFixes, ESTreeSerializer};
use serde_json::Value;
use std::alloc::Global;
use std::process::ExitCode;
use std::{env, io};
use tree_core::read_tree;

// What the text is read as.
#[derive(Clone, Copy, PartialEq, Eq)]
enum Form {
    Tree,
    Value,
}

fn form_named(word: &str) -> Option<Form> {
    match word {
        "tree" => Some(Form::Tree),
        "value" => Some(Form::Value),
        _ => None,
    }
}

fn tree_text(alloc: Global, value: &Value) -> Option<String> {
    let program = read_tree(alloc, value, 0).ok()?;
    let serializer = ESTreeSerializer::<ConfigFixes, CompactFormatter>::new(
        alloc, false, false,
    ).ok()?;
    serializer.serialize_with_fixes(&program).ok()
}

fn text_again(alloc: Global, form: Form, input: &[u8]) -> Option<String> {
    let value = Value::from_slice(alloc, input).ok()?;
    match form {
        Form::Tree => tree_text(alloc, &value),
        Form::Value => value.to_string(alloc).ok(),
    }
}

// The form that the first word names, if there is one.
fn asked(rt: &HostRuntime) -> io::Result<Option<Form>> {
    let mut words = env::args(rt)?;
    let _program = words.next();
    Ok(match words.next() {
        Some(word) => form_named(word.as_str()),
        None => None,
    })
}

fn main(rt: HostRuntime) -> ExitCode {
    let Ok(Some(form)) = asked(&rt) else {
        return ExitCode::SUCCESS;
    };
    let mut source = ReaderSource::new(rt.stdin());
    let Ok(input) = read_all(rt.alloc(), &mut source, INPUT_LIMIT) else {
        return ExitCode::FAILURE;
    };
    let Some(text) = text_again(rt.alloc(), form, input.as_slice()) else {
        return ExitCode::FAILURE;
    };
    let mut sink = WriterSink::new(rt.stdout());
    match write_whole(&mut sink, text.as_bytes()) {
        Ok(()) => ExitCode::SUCCESS,
        Err(_) => ExitCode::FAILURE,
    }
}
