//! The command `report`.

use crate::tests::end;
use mangle_tool::status::Status;
use std::alloc::Global;
use std::test::Fail;
use tool_commands::tool_status::{ToolStatus, tool_line};

// `let x = 1;` and, on the next line, `function f(x) { return y }`, as a module.
const SHADOWED: &str =
    "{\"type\":\"Program\",\"sourceType\":\"module\",\"body\":[{\"type\":\"VariableDeclaration\",\"kind\":\"let\",\"declarations\":[{\"type\":\"VariableDeclarator\",\"id\":{\"type\":\"Identifier\",\"name\":\"x\",\"start\":4},\"init\":{\"type\":\"Literal\",\"value\":1,\"raw\":\"1\"}}]},{\"type\":\"FunctionDeclaration\",\"id\":{\"type\":\"Identifier\",\"name\":\"f\",\"start\":20},\"generator\":false,\"async\":false,\"params\":[{\"type\":\"Identifier\",\"name\":\"x\",\"start\":22}],\"body\":{\"type\":\"BlockStatement\",\"body\":[{\"type\":\"ReturnStatement\",\"argument\":{\"type\":\"Identifier\",\"name\":\"y\",\"start\":34}}]},\"expression\":false}]}";

// `let x; var x` as a module, whose scopes have a fault.
const DECLARED_AGAIN: &str =
    "{\"type\":\"Program\",\"sourceType\":\"module\",\"body\":[{\"type\":\"VariableDeclaration\",\"kind\":\"let\",\"declarations\":[{\"type\":\"VariableDeclarator\",\"id\":{\"type\":\"Identifier\",\"name\":\"x\",\"start\":4},\"init\":null}]},{\"type\":\"VariableDeclaration\",\"kind\":\"var\",\"declarations\":[{\"type\":\"VariableDeclarator\",\"id\":{\"type\":\"Identifier\",\"name\":\"x\",\"start\":11},\"init\":null}]}]}";

// `let x; { let x; { var x } }` as a module.
const CROSSED: &str =
    "{\"type\":\"Program\",\"sourceType\":\"module\",\"body\":[{\"type\":\"VariableDeclaration\",\"kind\":\"let\",\"declarations\":[{\"type\":\"VariableDeclarator\",\"id\":{\"type\":\"Identifier\",\"name\":\"x\",\"start\":4},\"init\":null}]},{\"type\":\"BlockStatement\",\"body\":[{\"type\":\"VariableDeclaration\",\"kind\":\"let\",\"declarations\":[{\"type\":\"VariableDeclarator\",\"id\":{\"type\":\"Identifier\",\"name\":\"x\",\"start\":13},\"init\":null}]},{\"type\":\"BlockStatement\",\"body\":[{\"type\":\"VariableDeclaration\",\"kind\":\"var\",\"declarations\":[{\"type\":\"VariableDeclarator\",\"id\":{\"type\":\"Identifier\",\"name\":\"x\",\"start\":22},\"init\":null}]}]}]}]}";

// `{ function f() {} }` as a script.
const SLOPPY: &str =
    "{\"type\":\"Program\",\"sourceType\":\"script\",\"body\":[{\"type\":\"BlockStatement\",\"body\":[{\"type\":\"FunctionDeclaration\",\"id\":{\"type\":\"Identifier\",\"name\":\"f\",\"start\":11},\"generator\":false,\"async\":false,\"params\":[],\"body\":{\"type\":\"BlockStatement\",\"body\":[]},\"expression\":false}]}]}";

// `(function (a = #p in b) { var b })` as a module.
const REACHING: &str =
    "{\"type\":\"Program\",\"sourceType\":\"module\",\"body\":[{\"type\":\"ExpressionStatement\",\"expression\":{\"type\":\"FunctionExpression\",\"id\":null,\"generator\":false,\"async\":false,\"params\":[{\"type\":\"AssignmentPattern\",\"left\":{\"type\":\"Identifier\",\"name\":\"a\",\"start\":11},\"right\":{\"type\":\"BinaryExpression\",\"left\":{\"type\":\"PrivateIdentifier\",\"name\":\"p\",\"start\":15},\"operator\":\"in\",\"right\":{\"type\":\"Identifier\",\"name\":\"b\",\"start\":21}}}],\"body\":{\"type\":\"BlockStatement\",\"body\":[{\"type\":\"VariableDeclaration\",\"kind\":\"var\",\"declarations\":[{\"type\":\"VariableDeclarator\",\"id\":{\"type\":\"Identifier\",\"name\":\"b\",\"start\":30},\"init\":null}]}]},\"expression\":false}}]}";

// `y` as a module, told to start at 14.
const REFERENCE: &str =
    "{\"type\":\"Program\",\"sourceType\":\"module\",\"body\":[{\"type\":\"ExpressionStatement\",\"expression\":{\"type\":\"Identifier\",\"name\":\"y\",\"start\":14}}]}";

// An empty module.
const EMPTY: &str = "{\"type\":\"Program\",\"sourceType\":\"module\",\"body\":[]}";

// How the command ends on a tree whose source is this string of JSON, and what it writes.
fn reported(alloc: Global, source: &str, tree: &str) -> Result<(ToolStatus, String), Fail> {
    let input = format!(in alloc; "{{\"source\":{source},\"node\":{tree}}}")?;
    end(alloc, "report", input.as_str())
}

#[test]
fn programs_have_their_lines(rt: HostRuntime) -> Result<(), Fail> {
    let done = ToolStatus::Base(Status::Done);
    let bad_tree = ToolStatus::Base(Status::BadTree);
    for (tree, source, status, wanted) in [
        (
            SHADOWED,
            "\"let x = 1;\\nfunction f(x) { return y }\"",
            done,
            "1:5 unused x\n2:10 unused f\n2:12 unused x\n2:12 shadow x\n2:24 unresolved y\n",
        ),
        // a tree with a fault
        (
            DECLARED_AGAIN,
            "\"let x; var x\"",
            done,
            "1:5 unused x\n1:12 fault-1 x\n",
        ),
        // two faults at one place, in order; the others
        (
            CROSSED,
            "\"let x; { let x; { var x } }\"",
            done,
            "1:5 unused x\n1:14 unused x\n1:14 shadow x\n1:23 fault-1 x\n1:23 fault-2 x\n",
        ),
        (
            SLOPPY,
            "\"{ function f() {} }\"",
            done,
            "1:12 fault-3 f\n1:12 unused f\n",
        ),
        (
            REACHING,
            "\"(function (a = #p in b) { var b })\"",
            done,
            "1:12 unused a\n1:16 fault-4 p\n1:22 fault-5 b\n",
        ),
        // CR and LF end a line together, and CR one alone
        (
            DECLARED_AGAIN,
            "\"a\\r\\ncdefg\\rhij\"",
            done,
            "2:2 unused x\n3:3 fault-1 x\n",
        ),
        // columns are UTF-16 code units, of which the first character has two
        (
            REFERENCE,
            "\"\\\"😀é\\\"; (0, y)\"",
            done,
            "1:12 unresolved y\n",
        ),
        // the end of the text, one past it, within a character
        (REFERENCE, "\"0123456789abcd\"", done, "1:15 unresolved y\n"),
        (REFERENCE, "\"0123456789abc\"", ToolStatus::BadSpan, ""),
        (REFERENCE, "\"0123456789abcé\"", ToolStatus::BadSpan, ""),
        (DECLARED_AGAIN, "\"\"", ToolStatus::BadSpan, ""),
        // nothing is found
        (EMPTY, "\"\"", done, ""),
        // what is no text, no program, or not alone
        (EMPTY, "null", bad_tree, ""),
        ("{}", "\"\"", bad_tree, ""),
        (EMPTY, "\"\",\"more\":0", bad_tree, ""),
    ] {
        let (ended, text) = reported(rt.alloc(), source, tree)?;
        assert!(rt; ended == status && text.as_str() == wanted, "{source}");
    }
    Ok(())
}

#[test]
fn other_inputs_are_refused(rt: HostRuntime) -> Result<(), Fail> {
    for (line, input, status) in [
        ("report", EMPTY, Status::BadTree),
        ("report", "{", Status::NotJson),
        ("report report", EMPTY, Status::BadArgument),
        ("report --debug", EMPTY, Status::BadArgument),
        ("--debug report", EMPTY, Status::BadArgument),
    ] {
        let (ended, text) = end(rt.alloc(), line, input)?;
        assert!(rt;
            ended == ToolStatus::Base(status) && text.is_empty(),
            "{line} on {input}"
        );
    }
    Ok(())
}

#[test]
fn a_bad_span_has_number_and_line(rt: HostRuntime) {
    let bad = ToolStatus::BadSpan;
    assert!(rt; bad.number() == 14 && tool_line(bad) == "mangle: bad span");
}
