//! How nodes are built and looked into, how rows are found, and what a field says.

use oxc_str::JSText;
use std::alloc::{AllocError, Global};
use std::test::Fail;
use tree_nodes::literals::{LiteralCase, case_of, has_case, is_fixed, is_key, is_text};
use tree_nodes::roles::{empty_at, first_text, flag_at, role_at, word_at};
use tree_nodes::{
    Declared, Field, FieldList, KINDS, Kind, Mode, Node, NodeList, Role, TreeText, Words,
    get_column, is_placed, own_name_at, row, row_named, word_list,
};

fn text(alloc: Global, text: &str) -> Result<TreeText, AllocError> {
    Ok(TreeText::from_string(String::from_str(alloc, text)?))
}

fn named(alloc: Global, kind: Kind, name: &str) -> Result<Node, AllocError> {
    let name = Field::Text(text(alloc, name)?);
    Ok(Node {
        kind,
        start: 0,
        end: 5,
        fields: FieldList::from_vec(vec![in alloc; name]?),
    })
}

#[test]
fn a_text_is_copied(rt: HostRuntime) -> Result<(), Fail> {
    let copy = text(rt.alloc(), "run")?.try_clone(rt.alloc())?;
    assert!(rt; copy.len() == 3 && copy.as_str() == "run");
    Ok(())
}

// Where the node at a place ends, if there is one at that place.
fn end_at(nodes: &NodeList, i: usize) -> Option<Option<u32>> {
    match nodes.get(i)? {
        Some(node) => Some(Some(node.end)),
        None => Some(None),
    }
}

#[test]
fn nodes_are_listed(rt: HostRuntime) -> Result<(), Fail> {
    let node = named(rt.alloc(), Kind::Hashbang, "run")?;
    let nodes = NodeList::from_vec(vec![in rt.alloc(); None, Some(node)]?);
    assert!(rt; nodes.len() == 2 && end_at(&nodes, 0) == Some(None));
    assert!(rt; end_at(&nodes, 1) == Some(Some(5)) && end_at(&nodes, 2) == None);
    Ok(())
}

fn len_of_list(field: &Field) -> Option<usize> {
    match field {
        Field::List(nodes) => Some(nodes.len()),
        _ => None,
    }
}

#[test]
fn a_field_is_copied(rt: HostRuntime) -> Result<(), Fail> {
    let node = named(rt.alloc(), Kind::Hashbang, "run")?;
    let nodes = Field::List(NodeList::from_vec(vec![in rt.alloc(); None, Some(node)]?));
    assert!(rt; len_of_list(&nodes.try_clone(rt.alloc())?) == Some(2));
    Ok(())
}

#[test]
fn a_name_is_found(rt: HostRuntime) -> Result<(), Fail> {
    let copy = named(rt.alloc(), Kind::Identifier, "a")?.try_clone(rt.alloc())?;
    assert!(rt; first_text(&copy.fields) == "a");
    let child = Field::Child(Box::new(rt.alloc(), copy)?);
    let fields = FieldList::from_vec(vec![in rt.alloc(); child]?);
    assert!(rt; (own_name_at(&fields, 0), own_name_at(&fields, 1)) == ("a", ""));
    assert!(rt; fields.len() == 1 && fields.into_vec().len() == 1);
    Ok(())
}

fn number_of_kind(name: &str) -> Option<u8> {
    Some(row_named(name)?.kind.number())
}

#[test]
fn rows_are_found(rt: HostRuntime) {
    assert!(rt; number_of_kind("Super") == Some(7));
    assert!(rt; row(Kind::Super).name == "Super" && row_named("super").is_none());
    assert!(rt; get_column(row(Kind::Super).columns, 0).is_none());
    assert!(rt; (KINDS.len(), word_list(Words::UpdateOperators).len()) == (73, 2));
}

#[test]
fn kinds_are_compared(rt: HostRuntime) {
    assert!(rt; Kind::Super.is(Kind::Super) && !Kind::Super.is(Kind::Program));
    assert!(rt; Kind::Super.is_among(&[Kind::Program, Kind::Super]));
    assert!(rt; !Kind::Super.is_among(&[]));
}

// A literal of these fields before two, of which the last may hold digits.
fn literal(
    alloc: Global,
    value: Field,
    raw: Field,
    digits: Field,
) -> Result<FieldList, AllocError> {
    let fields = vec![in alloc; value, raw, Field::Empty, Field::Empty, digits]?;
    Ok(FieldList::from_vec(fields))
}

// Whether a literal has a case, is fixed, is a key, and is a text.
fn told(fields: &FieldList) -> (bool, bool, bool, bool) {
    (
        has_case(fields),
        is_fixed(fields),
        is_key(fields),
        is_text(fields),
    )
}

#[test]
fn a_big_int_is_told(rt: HostRuntime) -> Result<(), Fail> {
    let raw = Field::Text(text(rt.alloc(), "1n")?);
    let digits = Field::Text(text(rt.alloc(), "1")?);
    let fields = literal(rt.alloc(), Field::Empty, raw, digits)?;
    assert!(rt; matches!(case_of(&fields), LiteralCase::BigInt));
    assert!(rt; told(&fields) == (true, true, true, false));
    Ok(())
}

#[test]
fn a_string_is_told(rt: HostRuntime) -> Result<(), Fail> {
    let lone = Field::Str(JSText::from_units(rt.alloc(), &[0xd800])?);
    let fields = literal(rt.alloc(), lone, Field::Empty, Field::Empty)?;
    assert!(rt; matches!(case_of(&fields), LiteralCase::Text));
    assert!(rt; told(&fields) == (true, false, true, true));
    Ok(())
}

fn has_lone_surrogate(field: &Field) -> bool {
    match field {
        Field::Str(units) => units.as_js_str().has_lone_surrogate(),
        _ => false,
    }
}

#[test]
fn a_string_is_copied(rt: HostRuntime) -> Result<(), Fail> {
    let lone = Field::Str(JSText::from_units(rt.alloc(), &[0xd800])?);
    assert!(rt; has_lone_surrogate(&lone.try_clone(rt.alloc())?));
    Ok(())
}

// Of a field: whether it is empty, what its flag says, and its word.
fn said(fields: &FieldList, i: u8) -> (bool, bool, u8) {
    (empty_at(fields, i), flag_at(fields, i), word_at(fields, i))
}

#[test]
fn fields_say_roles(rt: HostRuntime) -> Result<(), Fail> {
    let fields = vec![in rt.alloc(); Field::Empty, Field::Flag(true), Field::Word(2)]?;
    let fields = FieldList::from_vec(fields);
    for (i, wanted) in [
        (0, (true, false, 0)),
        (1, (false, true, 0)),
        (2, (false, false, 2)),
        (3, (false, false, 0)),
    ] {
        assert!(rt; said(&fields, i) == wanted, "{i}");
    }
    let role = role_at(Mode::ByKind(2), Role::Read, &fields);
    assert!(rt; matches!(role, Role::Declares(Declared::Const)));
    Ok(())
}

fn program(alloc: Global, body: Vec<Option<Node>>) -> Result<Node, AllocError> {
    let body = Field::List(NodeList::from_vec(body));
    let fields = vec![in alloc; body, Field::Word(0), Field::Empty]?;
    Ok(Node {
        kind: Kind::Program,
        start: 0,
        end: 0,
        fields: FieldList::from_vec(fields),
    })
}

// Whether a node without fields may stand in the body of a program.
fn may_stand(alloc: Global, kind: Kind) -> Result<bool, AllocError> {
    let node = Node {
        kind,
        start: 0,
        end: 0,
        fields: FieldList::from_vec(Vec::new(alloc)),
    };
    let root = program(alloc, vec![in alloc; Some(node)]?)?;
    Ok(is_placed(alloc, &root))
}

#[test]
fn nodes_stand_where_they_may(rt: HostRuntime) -> Result<(), Fail> {
    for (kind, wanted) in [
        (Kind::EmptyStatement, true),
        (Kind::DebuggerStatement, true),
        (Kind::ThisExpression, false),
        (Kind::Super, false),
    ] {
        assert!(rt; may_stand(rt.alloc(), kind)? == wanted);
    }
    Ok(())
}
