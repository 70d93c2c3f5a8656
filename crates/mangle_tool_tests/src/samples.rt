//! Inputs and answers, in the layout of acorn and in that of this project.

use mangle_tool::estree::{Layout, MangleError, MangleOptions, mangle_estree};
use std::alloc::Global;

// A module with an empty body, of 84 bytes.
pub(crate) const EMPTY_MODULE: &str =
    "{\"type\":\"Program\",\"start\":0,\"end\":0,\"body\":[],\"sourceType\":\"module\",\"hashbang\":null}";

// The answer to it, of 106 bytes.
pub(crate) const EMPTY_ANSWER: &str =
    "{\"node\":\n{\"type\":\"Program\",\"start\":0,\"end\":0,\"body\":[],\"sourceType\":\"module\",\"hashbang\":null}\n,\"fixes\":[]}";

// The answer to it in the pretty layout.
pub(crate) const PRETTY_ANSWER: &str =
    "{\"node\":\n{\n  \"type\": \"Program\",\n  \"start\": 0,\n  \"end\": 0,\n  \"body\": [],\n  \"sourceType\": \"module\",\n  \"hashbang\": null\n}\n,\"fixes\":[]}";

// The module `let x = 1; x`, as acorn writes it.
pub(crate) const LET_MODULE: &str =
    "{\"type\":\"Program\",\"start\":0,\"end\":12,\"body\":[{\"type\":\"VariableDeclaration\",\"start\":0,\"end\":10,\"declarations\":[{\"type\":\"VariableDeclarator\",\"start\":4,\"end\":9,\"id\":{\"type\":\"Identifier\",\"start\":4,\"end\":5,\"name\":\"x\"},\"init\":{\"type\":\"Literal\",\"start\":8,\"end\":9,\"value\":1,\"raw\":\"1\"}}],\"kind\":\"let\"},{\"type\":\"ExpressionStatement\",\"start\":11,\"end\":12,\"expression\":{\"type\":\"Identifier\",\"start\":11,\"end\":12,\"name\":\"x\"}}],\"sourceType\":\"module\"}";

// The answer to it.
pub(crate) const LET_ANSWER: &str =
    "{\"node\":\n{\"type\":\"Program\",\"start\":0,\"end\":12,\"body\":[{\"type\":\"VariableDeclaration\",\"start\":0,\"end\":10,\"kind\":\"let\",\"declarations\":[{\"type\":\"VariableDeclarator\",\"start\":4,\"end\":9,\"id\":{\"type\":\"Identifier\",\"start\":4,\"end\":5,\"name\":\"e\"},\"init\":{\"type\":\"Literal\",\"start\":8,\"end\":9,\"value\":1,\"raw\":\"1\"}}]},{\"type\":\"ExpressionStatement\",\"start\":11,\"end\":12,\"expression\":{\"type\":\"Identifier\",\"start\":11,\"end\":12,\"name\":\"e\"}}],\"sourceType\":\"module\",\"hashbang\":null}\n,\"fixes\":[]}";

// A module of two strings that hold each character which has to be escaped, the second as code units with lone surrogates.
pub(crate) const ESCAPES: &str =
    "{\"type\":\"Program\",\"start\":0,\"end\":0,\"body\":[{\"type\":\"ExpressionStatement\",\"start\":0,\"end\":0,\"expression\":{\"type\":\"Literal\",\"start\":0,\"end\":0,\"value\":\"\\u0000\\u0001\\u0002\\u0003\\u0004\\u0005\\u0006\\u0007\\u000b\\u000e\\u000f\\u0010\\u0011\\u0012\\u0013\\u0014\\u0015\\u0016\\u0017\\u0018\\u0019\\u001a\\u001b\\u001c\\u001d\\u001e\\u001f\\b\\t\\n\\f\\r\\\"\\\\\\/\",\"raw\":\"\\\"\\\"\"}},{\"type\":\"ExpressionStatement\",\"start\":0,\"end\":0,\"expression\":{\"type\":\"Literal\",\"start\":0,\"end\":0,\"value\":[55356,8,34,57156],\"raw\":\"\\\"\\\"\"}}],\"sourceType\":\"module\",\"hashbang\":null}";

// The answer to it.
pub(crate) const ESCAPES_ANSWER: &str =
    "{\"node\":\n{\"type\":\"Program\",\"start\":0,\"end\":0,\"body\":[{\"type\":\"ExpressionStatement\",\"start\":0,\"end\":0,\"expression\":{\"type\":\"Literal\",\"start\":0,\"end\":0,\"value\":\"\\u0000\\u0001\\u0002\\u0003\\u0004\\u0005\\u0006\\u0007\\u000b\\u000e\\u000f\\u0010\\u0011\\u0012\\u0013\\u0014\\u0015\\u0016\\u0017\\u0018\\u0019\\u001a\\u001b\\u001c\\u001d\\u001e\\u001f\\b\\t\\n\\f\\r\\\"\\\\/\",\"raw\":\"\\\"\\\"\"}},{\"type\":\"ExpressionStatement\",\"start\":0,\"end\":0,\"expression\":{\"type\":\"Literal\",\"start\":0,\"end\":0,\"value\":\"\\ud83c\\b\\\"\\udf44\",\"raw\":\"\\\"\\\"\"}}],\"sourceType\":\"module\",\"hashbang\":null}\n,\"fixes\":[]}";

// A text of 27 bytes.
pub(crate) const TEXT: &[u8] = b"{\"node\":\n{\"type\":\"Program\"}";

// The answer under the default options, in the compact layout.
pub(crate) fn usual_answer(alloc: Global, input: &[u8]) -> Result<String, MangleError> {
    mangle_estree(alloc, input, &MangleOptions::new(alloc), Layout::Compact)
}
