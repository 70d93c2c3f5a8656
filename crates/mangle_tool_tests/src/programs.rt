//! Programs with scopes inside scopes: which names they get.

use crate::names::names_in;
use crate::samples::usual_answer;
use mangle_tool::estree::MangleError;
use std::alloc::Global;
use std::test::Fail;

// Blocks beside each other.
const BLOCKS_BESIDE_EACH_OTHER: &str =
    "{\"type\":\"Program\",\"body\":[{\"type\":\"BlockStatement\",\"body\":[{\"type\":\"VariableDeclaration\",\"kind\":\"let\",\"declarations\":[{\"type\":\"VariableDeclarator\",\"id\":{\"type\":\"Identifier\",\"name\":\"y\"}}]},{\"type\":\"ExpressionStatement\",\"expression\":{\"type\":\"Identifier\",\"name\":\"y\"}}]},{\"type\":\"BlockStatement\",\"body\":[{\"type\":\"VariableDeclaration\",\"kind\":\"let\",\"declarations\":[{\"type\":\"VariableDeclarator\",\"id\":{\"type\":\"Identifier\",\"name\":\"z\"}}]},{\"type\":\"ExpressionStatement\",\"expression\":{\"type\":\"Identifier\",\"name\":\"z\"}}]}],\"sourceType\":\"module\"}";

// A block that uses what is outside.
const A_BLOCK_THAT_USES_WHAT_IS_OUTSIDE: &str =
    "{\"type\":\"Program\",\"body\":[{\"type\":\"VariableDeclaration\",\"kind\":\"let\",\"declarations\":[{\"type\":\"VariableDeclarator\",\"id\":{\"type\":\"Identifier\",\"name\":\"x\"}}]},{\"type\":\"BlockStatement\",\"body\":[{\"type\":\"VariableDeclaration\",\"kind\":\"let\",\"declarations\":[{\"type\":\"VariableDeclarator\",\"id\":{\"type\":\"Identifier\",\"name\":\"y\"},\"init\":{\"type\":\"Identifier\",\"name\":\"x\"}}]},{\"type\":\"ExpressionStatement\",\"expression\":{\"type\":\"Identifier\",\"name\":\"y\"}}]}],\"sourceType\":\"module\"}";

// A function of a script.
pub(crate) const A_FUNCTION_OF_A_SCRIPT: &str =
    "{\"type\":\"Program\",\"body\":[{\"type\":\"FunctionDeclaration\",\"id\":{\"type\":\"Identifier\",\"name\":\"f\"},\"params\":[{\"type\":\"Identifier\",\"name\":\"a\"}],\"body\":{\"type\":\"BlockStatement\",\"body\":[{\"type\":\"ReturnStatement\",\"argument\":{\"type\":\"Identifier\",\"name\":\"a\"}}]}}],\"sourceType\":\"script\"}";

// A shorthand property.
const A_SHORTHAND_PROPERTY: &str =
    "{\"type\":\"Program\",\"body\":[{\"type\":\"VariableDeclaration\",\"kind\":\"let\",\"declarations\":[{\"type\":\"VariableDeclarator\",\"id\":{\"type\":\"Identifier\",\"name\":\"x\"}}]},{\"type\":\"ExpressionStatement\",\"expression\":{\"type\":\"ObjectExpression\",\"properties\":[{\"type\":\"Property\",\"kind\":\"init\",\"key\":{\"type\":\"Identifier\",\"name\":\"x\"},\"value\":{\"type\":\"Identifier\",\"name\":\"x\"},\"shorthand\":true}]}}],\"sourceType\":\"module\"}";

// A shadowed name of a function.
pub(crate) const A_SHADOWED_NAME_OF_A_FUNCTION: &str =
    "{\"type\":\"Program\",\"body\":[{\"type\":\"ExpressionStatement\",\"expression\":{\"type\":\"FunctionExpression\",\"id\":{\"type\":\"Identifier\",\"name\":\"f\"},\"params\":[{\"type\":\"Identifier\",\"name\":\"f\"}],\"body\":{\"type\":\"BlockStatement\",\"body\":[{\"type\":\"ReturnStatement\",\"argument\":{\"type\":\"Identifier\",\"name\":\"f\"}}]}}}],\"sourceType\":\"script\"}";

// A name of a function that a `let` in its body shadows.
const A_NAME_OF_A_FUNCTION_SHADOWED_BY_LET: &str =
    "{\"type\":\"Program\",\"body\":[{\"type\":\"ExpressionStatement\",\"expression\":{\"type\":\"FunctionExpression\",\"id\":{\"type\":\"Identifier\",\"name\":\"f\"},\"params\":[],\"body\":{\"type\":\"BlockStatement\",\"body\":[{\"type\":\"VariableDeclaration\",\"kind\":\"let\",\"declarations\":[{\"type\":\"VariableDeclarator\",\"id\":{\"type\":\"Identifier\",\"name\":\"f\"},\"init\":{\"type\":\"Literal\",\"value\":1,\"raw\":\"1\"}}]},{\"type\":\"ReturnStatement\",\"argument\":{\"type\":\"Identifier\",\"name\":\"f\"}}]}}}],\"sourceType\":\"module\"}";

// An export.
const AN_EXPORT: &str =
    "{\"type\":\"Program\",\"body\":[{\"type\":\"ExportNamedDeclaration\",\"specifiers\":[],\"declaration\":{\"type\":\"VariableDeclaration\",\"kind\":\"const\",\"declarations\":[{\"type\":\"VariableDeclarator\",\"id\":{\"type\":\"Identifier\",\"name\":\"x\"},\"init\":{\"type\":\"Literal\",\"value\":1,\"raw\":\"1\"}}]}},{\"type\":\"VariableDeclaration\",\"kind\":\"let\",\"declarations\":[{\"type\":\"VariableDeclarator\",\"id\":{\"type\":\"Identifier\",\"name\":\"y\"},\"init\":{\"type\":\"Identifier\",\"name\":\"x\"}}]},{\"type\":\"ExportNamedDeclaration\",\"specifiers\":[{\"type\":\"ExportSpecifier\",\"local\":{\"type\":\"Identifier\",\"name\":\"y\"},\"exported\":{\"type\":\"Identifier\",\"name\":\"z\"}}]}],\"sourceType\":\"module\"}";

// A direct eval.
const A_DIRECT_EVAL: &str =
    "{\"type\":\"Program\",\"body\":[{\"type\":\"FunctionDeclaration\",\"id\":{\"type\":\"Identifier\",\"name\":\"f\"},\"params\":[{\"type\":\"Identifier\",\"name\":\"a\"}],\"body\":{\"type\":\"BlockStatement\",\"body\":[{\"type\":\"ExpressionStatement\",\"expression\":{\"type\":\"CallExpression\",\"callee\":{\"type\":\"Identifier\",\"name\":\"eval\"},\"arguments\":[{\"type\":\"Identifier\",\"name\":\"a\"}]}},{\"type\":\"FunctionDeclaration\",\"id\":{\"type\":\"Identifier\",\"name\":\"g\"},\"params\":[{\"type\":\"Identifier\",\"name\":\"b\"}],\"body\":{\"type\":\"BlockStatement\",\"body\":[{\"type\":\"ReturnStatement\",\"argument\":{\"type\":\"Identifier\",\"name\":\"b\"}}]}}]}}],\"sourceType\":\"script\"}";

// Private names.
const PRIVATE_NAMES: &str =
    "{\"type\":\"Program\",\"body\":[{\"type\":\"ClassDeclaration\",\"id\":{\"type\":\"Identifier\",\"name\":\"A\"},\"body\":{\"type\":\"ClassBody\",\"body\":[{\"type\":\"PropertyDefinition\",\"key\":{\"type\":\"PrivateIdentifier\",\"name\":\"x\"}},{\"type\":\"MethodDefinition\",\"kind\":\"method\",\"key\":{\"type\":\"Identifier\",\"name\":\"m\"},\"value\":{\"type\":\"FunctionExpression\",\"id\":null,\"params\":[],\"body\":{\"type\":\"BlockStatement\",\"body\":[{\"type\":\"ClassDeclaration\",\"id\":{\"type\":\"Identifier\",\"name\":\"B\"},\"body\":{\"type\":\"ClassBody\",\"body\":[{\"type\":\"PropertyDefinition\",\"key\":{\"type\":\"PrivateIdentifier\",\"name\":\"z\"}},{\"type\":\"MethodDefinition\",\"kind\":\"method\",\"key\":{\"type\":\"Identifier\",\"name\":\"n\"},\"value\":{\"type\":\"FunctionExpression\",\"id\":null,\"params\":[{\"type\":\"Identifier\",\"name\":\"o\"}],\"body\":{\"type\":\"BlockStatement\",\"body\":[{\"type\":\"ReturnStatement\",\"argument\":{\"type\":\"MemberExpression\",\"object\":{\"type\":\"Identifier\",\"name\":\"o\"},\"property\":{\"type\":\"PrivateIdentifier\",\"name\":\"x\"}}}]}}}]}}]}}}]}}],\"sourceType\":\"module\"}";

// A with.
const A_WITH: &str =
    "{\"type\":\"Program\",\"body\":[{\"type\":\"FunctionDeclaration\",\"id\":{\"type\":\"Identifier\",\"name\":\"f\"},\"params\":[{\"type\":\"Identifier\",\"name\":\"a\"}],\"body\":{\"type\":\"BlockStatement\",\"body\":[{\"type\":\"WithStatement\",\"object\":{\"type\":\"Identifier\",\"name\":\"a\"},\"body\":{\"type\":\"ExpressionStatement\",\"expression\":{\"type\":\"Identifier\",\"name\":\"b\"}}}]}}],\"sourceType\":\"script\"}";

// The names in the answer to a program.
fn names_given(alloc: Global, input: &str) -> Result<String, MangleError> {
    let text = usual_answer(alloc, input.as_bytes())?;
    Ok(names_in(alloc, text.as_str())?)
}

#[test]
fn nested_scopes_are_mangled(rt: HostRuntime) -> Result<(), Fail> {
    for (input, names) in [
        (BLOCKS_BESIDE_EACH_OTHER, "e e e e "),
        (A_BLOCK_THAT_USES_WHAT_IS_OUTSIDE, "e t e t "),
        (A_FUNCTION_OF_A_SCRIPT, "f e e "),
        (A_SHORTHAND_PROPERTY, "e x e "),
        (A_SHADOWED_NAME_OF_A_FUNCTION, "e e e "),
        (A_NAME_OF_A_FUNCTION_SHADOWED_BY_LET, "e e e "),
        (AN_EXPORT, "x e x e z "),
        (A_DIRECT_EVAL, "f a eval a g e e "),
        (PRIVATE_NAMES, "e e m e t n e e e "),
        (A_WITH, "f a a b "),
    ] {
        let given = names_given(rt.alloc(), input)?;
        assert!(rt; given.as_str() == names, "of {input}");
    }
    Ok(())
}
