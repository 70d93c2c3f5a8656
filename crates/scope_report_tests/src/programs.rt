//! The programs of the tests: trees in which each name has its true start, but where said otherwise.

use serde_json::Value;
use std::alloc::Global;
use std::test::Fail;
use tree_core::{Program, read_tree};

/// `let x = 1;` and, on the next line, `function f(x) { return y }`, as a module.
pub(crate) const SHADOWED: &str =
    "{\"type\":\"Program\",\"sourceType\":\"module\",\"body\":[{\"type\":\"VariableDeclaration\",\"kind\":\"let\",\"declarations\":[{\"type\":\"VariableDeclarator\",\"id\":{\"type\":\"Identifier\",\"name\":\"x\",\"start\":4},\"init\":{\"type\":\"Literal\",\"value\":1,\"raw\":\"1\"}}]},{\"type\":\"FunctionDeclaration\",\"id\":{\"type\":\"Identifier\",\"name\":\"f\",\"start\":20},\"generator\":false,\"async\":false,\"params\":[{\"type\":\"Identifier\",\"name\":\"x\",\"start\":22}],\"body\":{\"type\":\"BlockStatement\",\"body\":[{\"type\":\"ReturnStatement\",\"argument\":{\"type\":\"Identifier\",\"name\":\"y\",\"start\":34}}]},\"expression\":false}]}";

/// `let x; var x` as a module.
pub(crate) const DECLARED_AGAIN: &str =
    "{\"type\":\"Program\",\"sourceType\":\"module\",\"body\":[{\"type\":\"VariableDeclaration\",\"kind\":\"let\",\"declarations\":[{\"type\":\"VariableDeclarator\",\"id\":{\"type\":\"Identifier\",\"name\":\"x\",\"start\":4},\"init\":null}]},{\"type\":\"VariableDeclaration\",\"kind\":\"var\",\"declarations\":[{\"type\":\"VariableDeclarator\",\"id\":{\"type\":\"Identifier\",\"name\":\"x\",\"start\":11},\"init\":null}]}]}";

/// `"😀é"; let x` as a module.
pub(crate) const AFTER_TEXT: &str =
    "{\"type\":\"Program\",\"sourceType\":\"module\",\"body\":[{\"type\":\"ExpressionStatement\",\"expression\":{\"type\":\"Literal\",\"value\":\"\\ud83d\\ude00\\u00e9\",\"raw\":\"\\\"\\ud83d\\ude00\\u00e9\\\"\"}},{\"type\":\"VariableDeclaration\",\"kind\":\"let\",\"declarations\":[{\"type\":\"VariableDeclarator\",\"id\":{\"type\":\"Identifier\",\"name\":\"x\",\"start\":14},\"init\":null}]}]}";

/// `let x;`, CR and LF, `let y`, as a module.
pub(crate) const TWO_LINES: &str =
    "{\"type\":\"Program\",\"sourceType\":\"module\",\"body\":[{\"type\":\"VariableDeclaration\",\"kind\":\"let\",\"declarations\":[{\"type\":\"VariableDeclarator\",\"id\":{\"type\":\"Identifier\",\"name\":\"x\",\"start\":4},\"init\":null}]},{\"type\":\"VariableDeclaration\",\"kind\":\"let\",\"declarations\":[{\"type\":\"VariableDeclarator\",\"id\":{\"type\":\"Identifier\",\"name\":\"y\",\"start\":12},\"init\":null}]}]}";

/// `let x; { let x; { var x } }` as a module.
pub(crate) const CROSSED: &str =
    "{\"type\":\"Program\",\"sourceType\":\"module\",\"body\":[{\"type\":\"VariableDeclaration\",\"kind\":\"let\",\"declarations\":[{\"type\":\"VariableDeclarator\",\"id\":{\"type\":\"Identifier\",\"name\":\"x\",\"start\":4},\"init\":null}]},{\"type\":\"BlockStatement\",\"body\":[{\"type\":\"VariableDeclaration\",\"kind\":\"let\",\"declarations\":[{\"type\":\"VariableDeclarator\",\"id\":{\"type\":\"Identifier\",\"name\":\"x\",\"start\":13},\"init\":null}]},{\"type\":\"BlockStatement\",\"body\":[{\"type\":\"VariableDeclaration\",\"kind\":\"var\",\"declarations\":[{\"type\":\"VariableDeclarator\",\"id\":{\"type\":\"Identifier\",\"name\":\"x\",\"start\":22},\"init\":null}]}]}]}]}";

/// `export let a; export default function f() {} let b; export { b }; let c` as a module.
pub(crate) const EXPORTED: &str =
    "{\"type\":\"Program\",\"sourceType\":\"module\",\"body\":[{\"type\":\"ExportNamedDeclaration\",\"declaration\":{\"type\":\"VariableDeclaration\",\"kind\":\"let\",\"declarations\":[{\"type\":\"VariableDeclarator\",\"id\":{\"type\":\"Identifier\",\"name\":\"a\",\"start\":11},\"init\":null}]},\"specifiers\":[],\"source\":null,\"attributes\":[]},{\"type\":\"ExportDefaultDeclaration\",\"declaration\":{\"type\":\"FunctionDeclaration\",\"id\":{\"type\":\"Identifier\",\"name\":\"f\",\"start\":38},\"generator\":false,\"async\":false,\"params\":[],\"body\":{\"type\":\"BlockStatement\",\"body\":[]},\"expression\":false}},{\"type\":\"VariableDeclaration\",\"kind\":\"let\",\"declarations\":[{\"type\":\"VariableDeclarator\",\"id\":{\"type\":\"Identifier\",\"name\":\"b\",\"start\":49},\"init\":null}]},{\"type\":\"ExportNamedDeclaration\",\"declaration\":null,\"specifiers\":[{\"type\":\"ExportSpecifier\",\"local\":{\"type\":\"Identifier\",\"name\":\"b\",\"start\":61},\"exported\":{\"type\":\"Identifier\",\"name\":\"b\",\"start\":61}}],\"source\":null,\"attributes\":[]},{\"type\":\"VariableDeclaration\",\"kind\":\"let\",\"declarations\":[{\"type\":\"VariableDeclarator\",\"id\":{\"type\":\"Identifier\",\"name\":\"c\",\"start\":70},\"init\":null}]}]}";

/// `(function f() { let f; return f })` as a script.
pub(crate) const FUNCTION_NAME: &str =
    "{\"type\":\"Program\",\"sourceType\":\"script\",\"body\":[{\"type\":\"ExpressionStatement\",\"expression\":{\"type\":\"FunctionExpression\",\"id\":{\"type\":\"Identifier\",\"name\":\"f\",\"start\":10},\"generator\":false,\"async\":false,\"params\":[],\"body\":{\"type\":\"BlockStatement\",\"body\":[{\"type\":\"VariableDeclaration\",\"kind\":\"let\",\"declarations\":[{\"type\":\"VariableDeclarator\",\"id\":{\"type\":\"Identifier\",\"name\":\"f\",\"start\":20},\"init\":null}]},{\"type\":\"ReturnStatement\",\"argument\":{\"type\":\"Identifier\",\"name\":\"f\",\"start\":30}}]},\"expression\":false}}]}";

/// `y` as a module, told to start at 1.
pub(crate) const REFERENCE: &str =
    "{\"type\":\"Program\",\"sourceType\":\"module\",\"body\":[{\"type\":\"ExpressionStatement\",\"expression\":{\"type\":\"Identifier\",\"name\":\"y\",\"start\":1}}]}";

/// `{ function f() {} }` as a script.
pub(crate) const SLOPPY: &str =
    "{\"type\":\"Program\",\"sourceType\":\"script\",\"body\":[{\"type\":\"BlockStatement\",\"body\":[{\"type\":\"FunctionDeclaration\",\"id\":{\"type\":\"Identifier\",\"name\":\"f\",\"start\":11},\"generator\":false,\"async\":false,\"params\":[],\"body\":{\"type\":\"BlockStatement\",\"body\":[]},\"expression\":false}]}]}";

/// `class A { m() { this.#p } }` as a module.
pub(crate) const UNDECLARED: &str =
    "{\"type\":\"Program\",\"sourceType\":\"module\",\"body\":[{\"type\":\"ClassDeclaration\",\"id\":{\"type\":\"Identifier\",\"name\":\"A\",\"start\":6},\"superClass\":null,\"body\":{\"type\":\"ClassBody\",\"body\":[{\"type\":\"MethodDefinition\",\"key\":{\"type\":\"Identifier\",\"name\":\"m\",\"start\":10},\"value\":{\"type\":\"FunctionExpression\",\"id\":null,\"generator\":false,\"async\":false,\"params\":[],\"body\":{\"type\":\"BlockStatement\",\"body\":[{\"type\":\"ExpressionStatement\",\"expression\":{\"type\":\"MemberExpression\",\"object\":{\"type\":\"ThisExpression\"},\"property\":{\"type\":\"PrivateIdentifier\",\"name\":\"p\",\"start\":21},\"computed\":false,\"optional\":false}}]},\"expression\":false},\"kind\":\"method\",\"computed\":false,\"static\":false}]}}]}";

/// `function f(a = b) { var b }` as a module.
pub(crate) const REACHING: &str =
    "{\"type\":\"Program\",\"sourceType\":\"module\",\"body\":[{\"type\":\"FunctionDeclaration\",\"id\":{\"type\":\"Identifier\",\"name\":\"f\",\"start\":9},\"generator\":false,\"async\":false,\"params\":[{\"type\":\"AssignmentPattern\",\"left\":{\"type\":\"Identifier\",\"name\":\"a\",\"start\":11},\"right\":{\"type\":\"Identifier\",\"name\":\"b\",\"start\":15}}],\"body\":{\"type\":\"BlockStatement\",\"body\":[{\"type\":\"VariableDeclaration\",\"kind\":\"var\",\"declarations\":[{\"type\":\"VariableDeclarator\",\"id\":{\"type\":\"Identifier\",\"name\":\"b\",\"start\":24},\"init\":null}]}]},\"expression\":false}]}";

/// The program of a text.
pub(crate) fn program(alloc: Global, text: &str) -> Result<Program, Fail> {
    match read_tree(alloc, &Value::from_str(alloc, text)?, 0) {
        Ok(program) => Ok(program),
        Err(_) => Err(Fail::from("no tree")),
    }
}
