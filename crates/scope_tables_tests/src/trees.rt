//! Small trees, built by hand.

use std::alloc::{AllocError, Global};
use tree_nodes::{Field, FieldList, Kind, Node, NodeList, TreeText};

type Built = Result<Option<Node>, AllocError>;

type Statements = Result<Vec<Option<Node>>, AllocError>;

fn node(kind: Kind, fields: Vec<Field>) -> Node {
    Node {
        kind,
        start: 0,
        end: 0,
        fields: FieldList::from_vec(fields),
    }
}

// A field with the node, or none.
fn child(alloc: Global, built: Built) -> Result<Field, AllocError> {
    match built? {
        Some(node) => Ok(Field::Child(Box::new(alloc, node)?)),
        None => Ok(Field::Empty),
    }
}

fn list(items: Vec<Option<Node>>) -> Field {
    Field::List(NodeList::from_vec(items))
}

fn only(alloc: Global, built: Built) -> Statements {
    Ok(vec![in alloc; built?]?)
}

fn both(alloc: Global, first: Built, second: Built) -> Statements {
    Ok(vec![in alloc; first?, second?]?)
}

fn named(alloc: Global, kind: Kind, name: &str) -> Built {
    let name = TreeText::from_string(String::from_str(alloc, name)?);
    Ok(Some(node(kind, vec![in alloc; Field::Text(name)]?)))
}

fn identifier(alloc: Global, name: &str) -> Built {
    named(alloc, Kind::Identifier, name)
}

// A script, or a module.
fn program(alloc: Global, is_module: bool, body: Statements) -> Result<Node, AllocError> {
    let fields = vec![in alloc; list(body?), Field::Word(is_module as u8), Field::Empty]?;
    Ok(node(Kind::Program, fields))
}

fn block(alloc: Global, body: Statements) -> Built {
    Ok(Some(node(Kind::BlockStatement, vec![in alloc; list(body?)]?)))
}

// `var name;` or `let name;`
fn declaration(alloc: Global, word: &str, name: &str) -> Built {
    let name = child(alloc, identifier(alloc, name))?;
    let declarator = node(
        Kind::VariableDeclarator,
        vec![in alloc; name, Field::Empty]?,
    );
    let declarators = list(vec![in alloc; Some(declarator)]?);
    let kind = Field::Word((word == "let") as u8);
    let fields = vec![in alloc; kind, declarators]?;
    Ok(Some(node(Kind::VariableDeclaration, fields)))
}

// `name = value`, as a parameter
fn default_at(alloc: Global, name: &str, value: &str) -> Built {
    let left = child(alloc, identifier(alloc, name))?;
    let right = child(alloc, identifier(alloc, value))?;
    Ok(Some(node(Kind::AssignmentPattern, vec![in alloc; left, right]?)))
}

// `return name`
fn gives_back(alloc: Global, name: &str) -> Built {
    let argument = child(alloc, identifier(alloc, name))?;
    Ok(Some(node(Kind::ReturnStatement, vec![in alloc; argument]?)))
}

// A function, as a declaration or an expression.
fn function(alloc: Global, kind: Kind, name: &str, params: Statements, body: Statements) -> Built {
    let fields = vec![in alloc;
        child(alloc, identifier(alloc, name))?,
        Field::Flag(false),
        Field::Flag(false),
        list(params?),
        child(alloc, block(alloc, body))?,
    ]?;
    Ok(Some(node(kind, fields)))
}

fn statement(alloc: Global, expression: Built) -> Built {
    let fields = vec![in alloc; child(alloc, expression)?, Field::Empty]?;
    Ok(Some(node(Kind::ExpressionStatement, fields)))
}

// `this.#q`
fn private_of_this(alloc: Global) -> Built {
    let this = child(alloc, Ok(Some(node(Kind::ThisExpression, Vec::new(alloc)))))?;
    let key = child(alloc, named(alloc, Kind::PrivateIdentifier, "q"))?;
    let fields = vec![in alloc; this, key, Field::Flag(false), Field::Flag(false)]?;
    Ok(Some(node(Kind::MemberExpression, fields)))
}

// `class extends heritage { #q = value }`, either of which may be missing
fn class_of(alloc: Global, heritage: Built, value: Built) -> Built {
    let key = child(alloc, named(alloc, Kind::PrivateIdentifier, "q"))?;
    let value = child(alloc, value)?;
    let fields = vec![in alloc; key, value, Field::Flag(false), Field::Flag(false)]?;
    let members = list(vec![in alloc; Some(node(Kind::PropertyDefinition, fields))]?);
    let body = node(Kind::ClassBody, vec![in alloc; members]?);
    let heritage = child(alloc, heritage)?;
    let body = child(alloc, Ok(Some(body)))?;
    let fields = vec![in alloc; Field::Empty, heritage, body]?;
    Ok(Some(node(Kind::ClassDeclaration, fields)))
}

/// `let x; { var y; function f(a = x) { return y } }`
pub(crate) fn closures(alloc: Global) -> Result<Node, AllocError> {
    let params = only(alloc, default_at(alloc, "a", "x"));
    let body = only(alloc, gives_back(alloc, "y"));
    let function = function(alloc, Kind::FunctionDeclaration, "f", params, body);
    let inner = both(alloc, declaration(alloc, "var", "y"), function);
    let outer = both(alloc, declaration(alloc, "let", "x"), block(alloc, inner));
    program(alloc, true, outer)
}

/// `let x; function f() { var x }`
pub(crate) fn declared_inside(alloc: Global) -> Result<Node, AllocError> {
    let body = only(alloc, declaration(alloc, "var", "x"));
    let params = Ok(Vec::new(alloc));
    let function = function(alloc, Kind::FunctionDeclaration, "f", params, body);
    program(
        alloc,
        true,
        both(alloc, declaration(alloc, "let", "x"), function),
    )
}

/// `let x; var x`, or with `var` the first time too
pub(crate) fn two_of(alloc: Global, word: &str) -> Result<Node, AllocError> {
    let first = declaration(alloc, word, "x");
    let second = declaration(alloc, "var", "x");
    program(alloc, true, both(alloc, first, second))
}

// `function name() {}`
fn empty_function(alloc: Global, name: &str) -> Built {
    let params = Ok(Vec::new(alloc));
    let body = Ok(Vec::new(alloc));
    function(alloc, Kind::FunctionDeclaration, name, params, body)
}

/// `{ function g() {} function g() {} }`
pub(crate) fn two_functions(alloc: Global) -> Result<Node, AllocError> {
    let functions = both(
        alloc,
        empty_function(alloc, "g"),
        empty_function(alloc, "g"),
    );
    program(alloc, true, only(alloc, block(alloc, functions)))
}

/// `var x; function x() {}`
pub(crate) fn joined(alloc: Global) -> Result<Node, AllocError> {
    let var = declaration(alloc, "var", "x");
    program(alloc, false, both(alloc, var, empty_function(alloc, "x")))
}

/// `{ let x; { var x } }`, or with `let` the second time too
pub(crate) fn nested(alloc: Global, word: &str) -> Result<Node, AllocError> {
    let inner = block(alloc, only(alloc, declaration(alloc, word, "x")));
    let outer = both(alloc, declaration(alloc, "let", "x"), inner);
    program(alloc, true, only(alloc, block(alloc, outer)))
}

/// `try {} catch (e) { var e }`, or with `let e`, or with `{ let e }`
pub(crate) fn caught(alloc: Global, word: &str) -> Result<Node, AllocError> {
    let declared = match word {
        "block" => block(alloc, only(alloc, declaration(alloc, "let", "e"))),
        _ => declaration(alloc, word, "e"),
    };
    let param = child(alloc, identifier(alloc, "e"))?;
    let body = child(alloc, block(alloc, only(alloc, declared)))?;
    let handler = Ok(Some(node(Kind::CatchClause, vec![in alloc; param, body]?)));
    let tried = child(alloc, block(alloc, Ok(Vec::new(alloc))))?;
    let fields = vec![in alloc; tried, child(alloc, handler)?, Field::Empty]?;
    let statement = Ok(Some(node(Kind::TryStatement, fields)));
    program(alloc, true, only(alloc, statement))
}

/// `{ function g() {} }`, in a script or a module
pub(crate) fn block_function(alloc: Global, is_module: bool) -> Result<Node, AllocError> {
    let block = block(alloc, only(alloc, empty_function(alloc, "g")));
    program(alloc, is_module, only(alloc, block))
}

/// `this.#q`
pub(crate) fn private_of_this_alone(alloc: Global) -> Result<Node, AllocError> {
    let statement = statement(alloc, private_of_this(alloc));
    program(alloc, true, only(alloc, statement))
}

/// `class extends this.#q { #q }`
pub(crate) fn heritage(alloc: Global) -> Result<Node, AllocError> {
    let class = class_of(alloc, private_of_this(alloc), Ok(None));
    program(alloc, true, only(alloc, class))
}

/// `class { #q = this.#q }`
pub(crate) fn own_member(alloc: Global) -> Result<Node, AllocError> {
    let class = class_of(alloc, Ok(None), private_of_this(alloc));
    program(alloc, true, only(alloc, class))
}

/// `function f(a = b) { var b }`, or with a parameter `b` first
pub(crate) fn with_default(alloc: Global, has_parameter: bool) -> Result<Node, AllocError> {
    let default = default_at(alloc, "a", "b");
    let params = if has_parameter {
        both(alloc, identifier(alloc, "b"), default)
    } else {
        only(alloc, default)
    };
    let body = only(alloc, declaration(alloc, "var", "b"));
    let function = function(alloc, Kind::FunctionDeclaration, "f", params, body);
    program(alloc, true, only(alloc, function))
}

/// `(function f(a = f) { var f })`
pub(crate) fn own_name_reached(alloc: Global) -> Result<Node, AllocError> {
    let params = only(alloc, default_at(alloc, "a", "f"));
    let body = only(alloc, declaration(alloc, "var", "f"));
    let function = function(alloc, Kind::FunctionExpression, "f", params, body);
    program(alloc, true, only(alloc, statement(alloc, function)))
}

/// `(function f(f) { return f })`
pub(crate) fn named_by_parameter(alloc: Global) -> Result<Node, AllocError> {
    let params = only(alloc, identifier(alloc, "f"));
    let body = only(alloc, gives_back(alloc, "f"));
    let function = function(alloc, Kind::FunctionExpression, "f", params, body);
    program(alloc, true, only(alloc, statement(alloc, function)))
}
