//! The small programs of the tests.

use serde_json::Value;
use std::alloc::Global;
use std::test::Fail;
use tree_core::{Program, read_tree};

/// `let x = 1; ({ x })` as a module.
pub(crate) const SOURCE: &str =
    "{\"type\":\"Program\",\"sourceType\":\"module\",\"body\":[{\"type\":\"VariableDeclaration\",\"kind\":\"let\",\"declarations\":[{\"type\":\"VariableDeclarator\",\"id\":{\"type\":\"Identifier\",\"name\":\"x\"},\"init\":{\"type\":\"Literal\",\"value\":1,\"raw\":\"1\"}}]},{\"type\":\"ExpressionStatement\",\"expression\":{\"type\":\"ObjectExpression\",\"properties\":[{\"type\":\"Property\",\"kind\":\"init\",\"key\":{\"type\":\"Identifier\",\"name\":\"x\"},\"value\":{\"type\":\"Identifier\",\"name\":\"x\"},\"method\":false,\"shorthand\":true,\"computed\":false}]}}]}";

/// The same mangled: `let e = 1; ({ x: e })`.
pub(crate) const MANGLED: &str =
    "{\"type\":\"Program\",\"sourceType\":\"module\",\"body\":[{\"type\":\"VariableDeclaration\",\"kind\":\"let\",\"declarations\":[{\"type\":\"VariableDeclarator\",\"id\":{\"type\":\"Identifier\",\"name\":\"e\"},\"init\":{\"type\":\"Literal\",\"value\":1,\"raw\":\"1\"}}]},{\"type\":\"ExpressionStatement\",\"expression\":{\"type\":\"ObjectExpression\",\"properties\":[{\"type\":\"Property\",\"kind\":\"init\",\"key\":{\"type\":\"Identifier\",\"name\":\"x\"},\"value\":{\"type\":\"Identifier\",\"name\":\"e\"},\"method\":false,\"shorthand\":false,\"computed\":false}]}}]}";

/// The program of a text.
pub(crate) fn program(alloc: Global, text: &str) -> Result<Program, Fail> {
    match read_tree(alloc, &Value::from_str(alloc, text)?, 0) {
        Ok(program) => Ok(program),
        Err(_) => Err(Fail::from("no tree")),
    }
}
