//! The private names of a class with two classes in it, of which one holds a direct eval.

use class_tables::PrivateTable;
use place_list::list_places;
use std::alloc::{AllocError, Global};
use std::test::Fail;
use tree_nodes::{Field, FieldList, Kind, Node, NodeList, TreeText};

fn node(kind: Kind, fields: Vec<Field>) -> Node {
    Node {
        kind,
        start: 0,
        end: 0,
        fields: FieldList::from_vec(fields),
    }
}

fn child(alloc: Global, node: Node) -> Result<Field, AllocError> {
    Ok(Field::Child(Box::new(alloc, node)?))
}

fn name(alloc: Global, kind: Kind, text: &str) -> Result<Field, AllocError> {
    let text = TreeText::from_string(String::from_str(alloc, text)?);
    child(alloc, node(kind, vec![in alloc; Field::Text(text)]?))
}

fn private_name(alloc: Global, text: &str) -> Result<Field, AllocError> {
    name(alloc, Kind::PrivateIdentifier, text)
}

// `#key = value;`
fn member(alloc: Global, key: &str, value: Field) -> Result<Option<Node>, AllocError> {
    let key = private_name(alloc, key)?;
    let fields = vec![in alloc; key, value, Field::Flag(false), Field::Flag(false)]?;
    Ok(Some(node(Kind::PropertyDefinition, fields)))
}

fn class(alloc: Global, kind: Kind, members: Vec<Option<Node>>) -> Result<Node, AllocError> {
    let members = Field::List(NodeList::from_vec(members));
    let body = child(alloc, node(Kind::ClassBody, vec![in alloc; members]?))?;
    let fields = vec![in alloc; Field::Empty, Field::Empty, body]?;
    Ok(node(kind, fields))
}

// `class { #x = #y; #q = #z }`: the value of a member is a bare private name, as no program has it
fn closed_class(alloc: Global) -> Result<Field, AllocError> {
    let members = vec![in alloc;
        member(alloc, "x", private_name(alloc, "y")?)?,
        member(alloc, "q", private_name(alloc, "z")?)?,
    ]?;
    child(alloc, class(alloc, Kind::ClassExpression, members)?)
}

// `class { #v = eval() }`
fn open_class(alloc: Global) -> Result<Field, AllocError> {
    let callee = name(alloc, Kind::Identifier, "eval")?;
    let arguments = Field::List(NodeList::from_vec(Vec::new(alloc)));
    let fields = vec![in alloc; callee, arguments, Field::Flag(false)]?;
    let call = child(alloc, node(Kind::CallExpression, fields))?;
    let members = vec![in alloc; member(alloc, "v", call)?]?;
    child(alloc, class(alloc, Kind::ClassExpression, members)?)
}

// `class { #x; #x; #y = class { #x = #y; #q = #z }; #w = class { #v = eval() } }`
fn sample(alloc: Global) -> Result<Node, AllocError> {
    let members = vec![in alloc;
        member(alloc, "x", Field::Empty)?,
        member(alloc, "x", Field::Empty)?,
        member(alloc, "y", closed_class(alloc)?)?,
        member(alloc, "w", open_class(alloc)?)?,
    ]?;
    let class = class(alloc, Kind::ClassDeclaration, members)?;
    let statements = Field::List(NodeList::from_vec(vec![in alloc; Some(class)]?));
    let fields = vec![in alloc; statements, Field::Word(0), Field::Empty]?;
    Ok(node(Kind::Program, fields))
}

#[test]
fn private_names_are_found(rt: HostRuntime) -> Result<(), Fail> {
    let alloc = rt.alloc();
    let root = sample(alloc)?;
    let list = list_places(alloc, &root)?;
    let table = PrivateTable::new(alloc, &list)?;
    let places = [
        ("x", Some(4), Some(0), Some(0)),
        ("x", Some(4), Some(0), Some(0)),
        ("y", Some(8), Some(0), Some(1)),
        ("x", Some(12), Some(1), Some(0)),
        ("y", Some(8), Some(0), Some(1)),
        ("q", Some(15), Some(1), Some(1)),
        ("z", None, None, None),
        ("w", Some(18), Some(0), Some(2)),
        ("v", Some(22), Some(2), Some(0)),
        ("eval", None, None, None),
    ];
    assert!(rt; list.places.len() == 10);
    for i in 0..10 {
        let (name, binding, class, index) = places[i];
        assert!(rt; list.places[i].name == name);
        assert!(rt; table.private_binding(i) == binding, "binding of {i}");
        assert!(rt; table.declaring_class(i) == class, "class of {i}");
        assert!(rt; table.name_index(i) == index, "index of {i}");
        assert!(rt; table.is_undeclared(i) == (name == "z"), "{i}");
    }
    assert!(rt; table.has_undeclared(), "undeclared");
    Ok(())
}

#[test]
fn class_bodies_are_told(rt: HostRuntime) -> Result<(), Fail> {
    let alloc = rt.alloc();
    let root = sample(alloc)?;
    let list = list_places(alloc, &root)?;
    let table = PrivateTable::new(alloc, &list)?;
    assert!(rt; list.class_bodies.len() == 3);
    let class_bodies = [(3, "x", true, 0), (2, "x", false, 2), (1, "v", true, 0)];
    for class_body in 0..3_u32 {
        let (count, first, is_open, closed) = class_bodies[class_body as usize];
        let names = table.private_names(class_body);
        assert!(rt; names.len() == count);
        assert!(rt; !names.is_empty() && names[0] == first, "first name");
        assert!(rt; table.is_open(class_body) == is_open, "open");
        assert!(rt; table.closed_count(Some(class_body)) == closed);
    }
    assert!(rt; table.closed_count(None) == 0);
    Ok(())
}
