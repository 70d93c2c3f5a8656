//! The scoping of `function f(a) { var a; x; f }`.

ghost use Rattle.std.specs.Prelude.{IfOk};
ghost use Rattle.tree_symbols.specs.Scopings.{IsScoping};

use oxc_data_structures::inline_string::InlineString;
use scope_tables::ScopeTables;
use std::alloc::{AllocError, Global};
use std::test::Fail;
use syntax_sem::node::NodeId;
use syntax_sem::reference::ReferenceId;
use syntax_sem::scope::{ScopeFlags, ScopeId};
use syntax_sem::symbol::{SymbolFlags, SymbolId};
use tree_nodes::{Field, FieldList, Kind, Node, NodeList, TreeText};
use tree_symbols::Scoping;

fn node(kind: Kind, fields: Vec<Field>) -> Node {
    Node {
        kind,
        start: 0,
        end: 0,
        fields: FieldList::from_vec(fields),
    }
}

fn child(alloc: Global, node: Node) -> Result<Field, AllocError> {
    Ok(Field::Child(Box::new(alloc, node)?))
}

fn identifier(alloc: Global, text: &str) -> Result<Node, AllocError> {
    let text = TreeText::from_string(String::from_str(alloc, text)?);
    Ok(node(Kind::Identifier, vec![in alloc; Field::Text(text)]?))
}

fn name(alloc: Global, text: &str) -> Result<Field, AllocError> {
    child(alloc, identifier(alloc, text)?)
}

// `text;`
fn mention(alloc: Global, text: &str) -> Result<Option<Node>, AllocError> {
    let fields = vec![in alloc; name(alloc, text)?, Field::Empty]?;
    Ok(Some(node(Kind::ExpressionStatement, fields)))
}

// `var text;`
fn variable(alloc: Global, text: &str) -> Result<Option<Node>, AllocError> {
    let declarator = node(
        Kind::VariableDeclarator,
        vec![in alloc; name(alloc, text)?, Field::Empty]?,
    );
    let declarators = NodeList::from_vec(vec![in alloc; Some(declarator)]?);
    let fields = vec![in alloc; Field::Word(0), Field::List(declarators)]?;
    Ok(Some(node(Kind::VariableDeclaration, fields)))
}

fn function(alloc: Global) -> Result<Option<Node>, AllocError> {
    let statements = vec![in alloc;
        variable(alloc, "a")?,
        mention(alloc, "x")?,
        mention(alloc, "f")?,
    ]?;
    let body = node(
        Kind::BlockStatement,
        vec![in alloc; Field::List(NodeList::from_vec(statements))]?,
    );
    let parameters = NodeList::from_vec(vec![in alloc; Some(identifier(alloc, "a")?)]?);
    let fields = vec![in alloc;
        name(alloc, "f")?,
        Field::Flag(false),
        Field::Flag(false),
        Field::List(parameters),
        child(alloc, body)?,
        Field::Flag(false),
    ]?;
    Ok(Some(node(Kind::FunctionDeclaration, fields)))
}

fn program(alloc: Global) -> Result<Node, AllocError> {
    let body = NodeList::from_vec(vec![in alloc; function(alloc)?]?);
    let fields = vec![in alloc; Field::List(body), Field::Word(0), Field::Empty]?;
    Ok(node(Kind::Program, fields))
}

// The scoping of a tree.
fn scoping_of<'t>(alloc: Global, root: &'t Node) -> Result<Scoping<'t>, AllocError>
    ensures { IfOk result (λ s. IsScoping s) }
{
    let tables = ScopeTables::build(alloc, root)?;
    let scoping = Scoping::build(alloc, tables)?;
    Ok(scoping)
}

#[test]
fn symbols_of_a_function(rt: HostRuntime) -> Result<(), Fail> {
    let root = program(rt.alloc())?;
    let scoping = scoping_of(rt.alloc(), &root)?;
    let f = SymbolId::from_usize(0);
    let a = SymbolId::from_usize(1);
    assert_eq!(rt; scoping.symbols_len(), 2);
    assert_eq!(rt; scoping.symbol_ident(f).as_str(), "f");
    assert_eq!(rt; scoping.symbol_flags(f), SymbolFlags::FUNCTION);
    assert_eq!(rt;
        scoping.symbol_flags(a),
        SymbolFlags::FUNCTION_SCOPED_VARIABLE
    );
    assert_eq!(rt; scoping.symbol_scope_id(f).index(), 0);
    assert_eq!(rt; scoping.symbol_scope_id(a).index(), 1);
    assert_eq!(rt; scoping.symbol_declaration(a).index(), 3);
    let further = scoping.symbol_redeclarations(a);
    assert_eq!(rt; further.len(), 1);
    assert_eq!(rt; further[0].index(), 7);
    assert_eq!(rt; scoping.symbol_redeclarations(f).len(), 0);
    assert_eq!(rt; scoping.node_symbol(NodeId::from_usize(7)), Some(a));
    assert!(rt; scoping.node_symbol(NodeId::from_usize(9)).is_none());
    Ok(())
}

#[test]
fn scopes_of_a_function(rt: HostRuntime) -> Result<(), Fail> {
    let root = program(rt.alloc())?;
    let scoping = scoping_of(rt.alloc(), &root)?;
    let top = ScopeId::from_usize(0);
    let inner = ScopeId::from_usize(1);
    assert_eq!(rt; scoping.scopes_len(), 2);
    assert_eq!(rt; scoping.scope_flags(top), ScopeFlags::TOP);
    assert_eq!(rt; scoping.scope_flags(inner), ScopeFlags::FUNCTION);
    assert!(rt; scoping.scope_parent_id(top).is_none());
    assert_eq!(rt; scoping.scope_parent_id(inner), Some(top));
    assert_eq!(rt; scoping.root_scope_id(), top);
    let listed = scoping.get_bindings(inner);
    assert_eq!(rt; listed.len(), 1);
    assert_eq!(rt; listed[0].index(), 1);
    let mut around = scoping.scope_ancestors(inner);
    assert_eq!(rt; around.next(), Some(inner));
    assert_eq!(rt; around.next(), Some(top));
    assert!(rt; around.next().is_none());
    assert_eq!(rt; scoping.iter_bindings().count(), 2);
    Ok(())
}

#[test]
fn references_of_a_function(rt: HostRuntime) -> Result<(), Fail> {
    let root = program(rt.alloc())?;
    let scoping = scoping_of(rt.alloc(), &root)?;
    assert_eq!(rt; scoping.symbols_len(), 2);
    assert_eq!(rt; scoping.references_len(), 2);
    let uses = scoping.get_resolved_reference_ids(SymbolId::from_usize(0));
    assert_eq!(rt; uses.len(), 1);
    assert_eq!(rt; uses[0].index(), 1);
    let unbound = scoping.get_reference(ReferenceId::from_usize(0));
    assert!(rt; unbound.symbol_id().is_none());
    assert_eq!(rt; unbound.node_id().index(), 9);
    assert_eq!(rt; unbound.scope_id().index(), 1);
    assert!(rt; unbound.is_read());
    assert!(rt; scoping.is_unresolved("x"));
    assert!(rt; !scoping.is_unresolved("f"));
    Ok(())
}

#[test]
fn names_are_set_and_reset(rt: HostRuntime) -> Result<(), Fail> {
    let root = program(rt.alloc())?;
    let mut scoping = scoping_of(rt.alloc(), &root)?;
    let a = SymbolId::from_usize(1);
    assert_eq!(rt; scoping.symbols_len(), 2);
    let ids = [a];
    scoping.set_symbol_names(ids.as_slice(), &InlineString::from_str("e"));
    assert_eq!(rt; scoping.symbols_len(), 2);
    assert_eq!(rt; scoping.symbol_name(a), "e");
    scoping.reset_symbol_names();
    assert_eq!(rt; scoping.symbols_len(), 2);
    assert_eq!(rt; scoping.symbol_name(a), "a");
    Ok(())
}
