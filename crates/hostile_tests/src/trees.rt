//! Programs as short texts, and how they are judged.

use mangle_tool::estree::{Layout, MangleError, MangleOptions, mangle_estree};
use std::alloc::{AllocError, Global};

// What can stand around a text, in the place of `$`: nothing, a module around an item, one around an expression.
pub(crate) const NOTHING: &str = "$";

pub(crate) const MODULE: &str = "{'type':'Program','body':[$],'sourceType':'module'}";

pub(crate) const STATEMENT: &str =
    "{'type':'Program','body':[{'type':'ExpressionStatement','expression':$}],'sourceType':'module'}";

// Why these bytes have no answer, if they have none.
pub(crate) fn error_of(alloc: Global, input: &[u8]) -> Option<MangleError> {
    mangle_estree(alloc, input, &MangleOptions::new(alloc), Layout::Compact).err()
}

// JSON in which `'` stands for a quotation mark, and `@` for an Identifier.
fn json(alloc: Global, text: &str) -> Result<String, AllocError> {
    let text = text.replace(alloc, "@", "{'type':'Identifier','name':'a'}")?;
    text.as_str().replace(alloc, "'", "\"")
}

// Whether this is a tree: the text in what stands around it, where `value` stands for each `#`. Its scopes may have
// faults.
pub(crate) fn is_tree(
    alloc: Global,
    around: &str,
    text: &str,
    value: &str,
) -> Result<bool, AllocError> {
    let program = around.replace(alloc, "$", text)?;
    let program = program.as_str().replace(alloc, "#", value)?;
    let program = json(alloc, program.as_str())?;
    Ok(error_of(alloc, program.as_bytes()) != Some(MangleError::BadTree))
}
