//! Three scripts.

use std::alloc::{AllocError, Global};
use tree_nodes::{Field, FieldList, Kind, Node, NodeList, TreeText};

fn node(kind: Kind, fields: Vec<Field>) -> Node {
    Node {
        kind,
        start: 0,
        end: 0,
        fields: FieldList::from_vec(fields),
    }
}

fn child(alloc: Global, node: Node) -> Result<Field, AllocError> {
    Ok(Field::Child(Box::new(alloc, node)?))
}

fn list_of(nodes: Vec<Option<Node>>) -> Field {
    Field::List(NodeList::from_vec(nodes))
}

fn name(alloc: Global, kind: Kind, text: &str) -> Result<Field, AllocError> {
    let text = TreeText::from_string(String::from_str(alloc, text)?);
    child(alloc, node(kind, vec![in alloc; Field::Text(text)]?))
}

fn identifier(alloc: Global, text: &str) -> Result<Field, AllocError> {
    name(alloc, Kind::Identifier, text)
}

// `let name;`
fn declaration(alloc: Global, name: &str) -> Result<Option<Node>, AllocError> {
    let fields = vec![in alloc; identifier(alloc, name)?, Field::Empty]?;
    let declarator = Some(node(Kind::VariableDeclarator, fields));
    let declarators = list_of(vec![in alloc; declarator]?);
    let fields = vec![in alloc; Field::Word(1), declarators]?;
    Ok(Some(node(Kind::VariableDeclaration, fields)))
}

// `expression;`
fn statement(alloc: Global, expression: Field) -> Result<Option<Node>, AllocError> {
    let fields = vec![in alloc; expression, Field::Empty]?;
    Ok(Some(node(Kind::ExpressionStatement, fields)))
}

// `#key;`
fn member(alloc: Global, key: &str) -> Result<Option<Node>, AllocError> {
    let key = name(alloc, Kind::PrivateIdentifier, key)?;
    let fields = vec![in alloc; key, Field::Empty, Field::Flag(false), Field::Flag(false)]?;
    Ok(Some(node(Kind::PropertyDefinition, fields)))
}

// `(class { #x; #y })`
fn class(alloc: Global) -> Result<Field, AllocError> {
    let members = list_of(vec![in alloc; member(alloc, "x")?, member(alloc, "y")?]?);
    let body = child(alloc, node(Kind::ClassBody, vec![in alloc; members]?))?;
    let fields = vec![in alloc; Field::Empty, Field::Empty, body]?;
    child(alloc, node(Kind::ClassExpression, fields))
}

fn program(alloc: Global, statements: Vec<Option<Node>>) -> Result<Node, AllocError> {
    let fields = vec![in alloc; list_of(statements), Field::Word(0), Field::Empty]?;
    Ok(node(Kind::Program, fields))
}

/// `let a; let b; b`
pub(crate) fn two_bindings(alloc: Global) -> Result<Node, AllocError> {
    let statements = vec![in alloc;
        declaration(alloc, "a")?,
        declaration(alloc, "b")?,
        statement(alloc, identifier(alloc, "b")?)?,
    ]?;
    program(alloc, statements)
}

/// `let a; e`
pub(crate) fn beside_unbound(alloc: Global) -> Result<Node, AllocError> {
    let statements = vec![in alloc;
        declaration(alloc, "a")?,
        statement(alloc, identifier(alloc, "e")?)?,
    ]?;
    program(alloc, statements)
}

/// `let a; (class { #x; #y })`
pub(crate) fn beside_class(alloc: Global) -> Result<Node, AllocError> {
    let statements = vec![in alloc; declaration(alloc, "a")?, statement(alloc, class(alloc)?)?]?;
    program(alloc, statements)
}
