//! Which names declarations bind, and the patterns in them.

use crate::texts::{module, read};
use std::alloc::{AllocError, Global};
use std::test::Fail;
use tree_core::Program;
use tree_nodes::{Field, Node};
use tree_patterns::{
    bound_names, bound_names_are_declared, bound_names_are_identifiers, bound_names_by_kind,
};

// The names that a node binds, in a row.
fn spelled(alloc: Global, node: &Node) -> Result<String, AllocError> {
    let names = bound_names(alloc, node)?;
    let mut text = String::new(alloc);
    for i in 0..names.len() {
        if let Some(Field::Text(name)) = names.get(i).and_then(|n| n.fields.get(0)) {
            text.push_str(name.as_str())?;
        }
    }
    Ok(text)
}

fn first_statement(program: &Program) -> Option<&Node> {
    match program.root().fields.get(0) {
        Some(Field::List(body)) => match body.get(0) {
            Some(Some(node)) => Some(node),
            _ => None,
        },
        _ => None,
    }
}

fn bound_by(alloc: Global, statement: &str) -> Result<String, Fail> {
    let text = module(alloc, statement)?;
    let program = read(alloc, text.as_str(), 0)?.ok().ok_or("a program")?;
    let node = first_statement(&program).ok_or("a statement")?;
    Ok(spelled(alloc, node)?)
}

#[test]
fn declarations_bind(rt: HostRuntime) -> Result<(), Fail> {
    for (statement, wanted) in [
        // `let a = b, [c, , ...d] = a`
        (
            "{'type':'VariableDeclaration','kind':'let','declarations':[{'type':'VariableDeclarator','id':@,'init':{'type':'Identifier','name':'b'}},{'type':'VariableDeclarator','id':{'type':'ArrayPattern','elements':[{'type':'Identifier','name':'c'},null,{'type':'RestElement','argument':{'type':'Identifier','name':'d'}}]},'init':@}]}",
            "acd",
        ),
        // `let { a: b = c, [a]: d } = a`
        (
            "{'type':'VariableDeclaration','kind':'let','declarations':[{'type':'VariableDeclarator','id':{'type':'ObjectPattern','properties':[{'type':'Property','kind':'init','key':@,'value':{'type':'AssignmentPattern','left':{'type':'Identifier','name':'b'},'right':{'type':'Identifier','name':'c'}}},{'type':'Property','kind':'init','computed':true,'key':@,'value':{'type':'Identifier','name':'d'}}]},'init':@}]}",
            "bd",
        ),
        // `function f(a) {}`
        (
            "{'type':'FunctionDeclaration','id':{'type':'Identifier','name':'f'},'params':[@],'body':{'type':'BlockStatement','body':[]}}",
            "f",
        ),
        // `class A extends a {}`
        (
            "{'type':'ClassDeclaration','id':{'type':'Identifier','name':'A'},'superClass':@,'body':{'type':'ClassBody','body':[]}}",
            "A",
        ),
        // `a`
        ("{'type':'ExpressionStatement','expression':@}", ""),
    ] {
        assert!(rt;
            bound_by(rt.alloc(), statement)?.as_str() == wanted,
            "{statement}"
        );
    }
    Ok(())
}

#[test]
fn laws_are_called(_rt: HostRuntime) {
    bound_names_are_declared();
    bound_names_are_identifiers();
    bound_names_by_kind();
}
