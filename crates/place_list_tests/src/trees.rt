//! Two trees.

use std::alloc::{AllocError, Global};
use tree_nodes::{Field, FieldList, Kind, Node, NodeList, TreeText};

fn node(kind: Kind, fields: Vec<Field>) -> Node {
    Node {
        kind,
        start: 0,
        end: 0,
        fields: FieldList::from_vec(fields),
    }
}

fn list_of(nodes: Vec<Option<Node>>) -> Field {
    Field::List(NodeList::from_vec(nodes))
}

fn child(alloc: Global, node: Node) -> Result<Field, AllocError> {
    Ok(Field::Child(Box::new(alloc, node)?))
}

fn only(alloc: Global, node: Node) -> Result<Field, AllocError> {
    Ok(list_of(vec![in alloc; Some(node)]?))
}

fn identifier(alloc: Global, name: &str) -> Result<Node, AllocError> {
    let name = TreeText::from_string(String::from_str(alloc, name)?);
    Ok(node(Kind::Identifier, vec![in alloc; Field::Text(name)]?))
}

fn name(alloc: Global, name: &str) -> Result<Field, AllocError> {
    child(alloc, identifier(alloc, name)?)
}

// `() => z`
fn arrow(alloc: Global) -> Result<Field, AllocError> {
    let body = name(alloc, "z")?;
    let params = list_of(Vec::new(alloc));
    let fields = vec![in alloc; Field::Flag(true), Field::Flag(false), params, body]?;
    child(alloc, node(Kind::ArrowFunctionExpression, fields))
}

// `x = () => z`
fn declarator(alloc: Global) -> Result<Node, AllocError> {
    let value = arrow(alloc)?;
    let fields = vec![in alloc; name(alloc, "x")?, value]?;
    Ok(node(Kind::VariableDeclarator, fields))
}

// `var x = () => z;`
fn declaration(alloc: Global) -> Result<Node, AllocError> {
    let declarators = only(alloc, declarator(alloc)?)?;
    let fields = vec![in alloc; Field::Word(0), declarators]?;
    Ok(node(Kind::VariableDeclaration, fields))
}

// `y;`
fn statement(alloc: Global) -> Result<Node, AllocError> {
    let fields = vec![in alloc; name(alloc, "y")?, Field::Empty]?;
    Ok(node(Kind::ExpressionStatement, fields))
}

fn block_of(alloc: Global, statements: Field) -> Result<Node, AllocError> {
    Ok(node(Kind::BlockStatement, vec![in alloc; statements]?))
}

// `{ y; }`
fn block(alloc: Global) -> Result<Node, AllocError> {
    block_of(alloc, only(alloc, statement(alloc)?)?)
}

// `class {}`
fn class(alloc: Global) -> Result<Node, AllocError> {
    let members = list_of(Vec::new(alloc));
    let body = child(alloc, node(Kind::ClassBody, vec![in alloc; members]?))?;
    let fields = vec![in alloc; Field::Empty, Field::Empty, body]?;
    Ok(node(Kind::ClassDeclaration, fields))
}

// `{ var x = () => z; { y; } class {} }`
fn body(alloc: Global) -> Result<Field, AllocError> {
    let statements = vec![in alloc;
        Some(declaration(alloc)?),
        Some(block(alloc)?),
        Some(class(alloc)?),
    ]?;
    child(alloc, block_of(alloc, list_of(statements))?)
}

// `function f(p) { var x = () => z; { y; } class {} }`
fn function(alloc: Global) -> Result<Node, AllocError> {
    let fields = vec![in alloc;
        name(alloc, "f")?,
        Field::Flag(false),
        Field::Flag(false),
        only(alloc, identifier(alloc, "p")?)?,
        body(alloc)?,
    ]?;
    Ok(node(Kind::FunctionDeclaration, fields))
}

fn program(alloc: Global, statements: Field) -> Result<Node, AllocError> {
    let fields = vec![in alloc; statements, Field::Word(0), Field::Empty]?;
    Ok(node(Kind::Program, fields))
}

/// `function f(p) { var x = () => z; { y; } class {} }`
pub(crate) fn sample(alloc: Global) -> Result<Node, AllocError> {
    program(alloc, only(alloc, function(alloc)?)?)
}

/// `{ y; } { y; }`
pub(crate) fn twice(alloc: Global) -> Result<Node, AllocError> {
    let blocks = vec![in alloc; Some(block(alloc)?), Some(block(alloc)?)]?;
    program(alloc, list_of(blocks))
}
