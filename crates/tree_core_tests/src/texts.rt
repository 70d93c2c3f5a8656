//! Programs as texts, and what is read and printed of them.

use oxc_estree::{CompactFormatter, ConfigFixes, ESTreeSerializer};
use serde_json::Value;
use std::alloc::{AllocError, Global};
use std::test::Fail;
use tree_core::{Program, ReadError, read_tree};

// JSON in which `'` stands for a quotation mark, and `@` for an Identifier.
pub fn json(alloc: Global, text: &str) -> Result<String, AllocError> {
    let text = text.replace(alloc, "@", "{'type':'Identifier','name':'a'}")?;
    text.as_str().replace(alloc, "'", "\"")
}

// The text of a module with this body, as it is printed without `start` and `end`.
pub fn module(alloc: Global, body: &str) -> Result<String, AllocError> {
    let text = format!(in alloc;
        "{{'type':'Program','body':[{body}],'sourceType':'module','hashbang':null}}"
    )?;
    json(alloc, text.as_str())
}

// The same of a module of one expression.
pub fn expression(alloc: Global, expression: &str) -> Result<String, AllocError> {
    let body = format!(in alloc; "{{'type':'ExpressionStatement','expression':{expression}}}")?;
    module(alloc, body.as_str())
}

pub fn read(alloc: Global, text: &str, more: usize) -> Result<Result<Program, ReadError>, Fail> {
    let value = Value::from_str(alloc, text)?;
    Ok(read_tree(alloc, &value, more))
}

// What is printed of a program without each `start` and `end` that is 0, or why it isn't read.
pub fn printed(alloc: Global, text: &str) -> Result<String, Fail> {
    match read(alloc, text, 0)? {
        Ok(program) => {
            let serializer = ESTreeSerializer::<ConfigFixes, CompactFormatter>::new(
                alloc, false, false,
            )?;
            let text = serializer.serialize_with_fixes(&program)?;
            Ok(text.as_str().replace(alloc, ",\"start\":0,\"end\":0", "")?)
        }
        Err(error) => Ok(format!(in alloc; "{error}")?),
    }
}

// The whole output where this is printed of a program, with these paths to its marks.
pub fn output(alloc: Global, program: &str, fixes: &str) -> Result<String, AllocError> {
    format!(in alloc; "{{\"node\":\n{program}\n,\"fixes\":{fixes}}}")
}
