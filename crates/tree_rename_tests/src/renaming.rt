//! Names and marks of small trees that are renamed.

use serde_json::Value;
use std::alloc::{AllocError, Global};
use std::test::Fail;
use tree_core::read_tree;
use tree_nodes::roles::flag_at;
use tree_nodes::{Field, FieldList, Kind, Node, TreeText, own_name_at};
use tree_rename::{rename, rename_tree};

fn node(alloc: Global, kind: Kind, fields: Vec<Field>) -> Result<Box<Node>, AllocError> {
    let node = Node {
        kind,
        start: 0,
        end: 0,
        fields: FieldList::from_vec(fields),
    };
    Ok(Box::new(alloc, node)?)
}

fn identifier(alloc: Global, name: &str) -> Result<Box<Node>, AllocError> {
    let mut fields = Vec::with_capacity(alloc, 1)?;
    fields.push(Field::Text(TreeText::from_string(String::from_str(alloc, name)?)))?;
    node(alloc, Kind::Identifier, fields)
}

// `a = b`, as a pattern with a default.
fn with_default(alloc: Global, name: &str, default: &str) -> Result<Box<Node>, AllocError> {
    let mut fields = Vec::with_capacity(alloc, 2)?;
    fields.push(Field::Child(identifier(alloc, name)?))?;
    fields.push(Field::Child(identifier(alloc, default)?))?;
    node(alloc, Kind::AssignmentPattern, fields)
}

// `a` in `{ a }` or, with a default, in `{ a = b }`: a Property in shorthand.
fn shorthand(alloc: Global, default: Option<&str>) -> Result<Node, AllocError> {
    let value = match default {
        Some(default) => with_default(alloc, "a", default)?,
        None => identifier(alloc, "a")?,
    };
    let mut fields = Vec::with_capacity(alloc, 6)?;
    fields.push(Field::Word(0))?;
    fields.push(Field::Child(identifier(alloc, "a")?))?;
    fields.push(Field::Child(value))?;
    fields.push(Field::Flag(false))?;
    fields.push(Field::Flag(true))?;
    fields.push(Field::Flag(false))?;
    Ok(Box::into_inner(node(alloc, Kind::Property, fields)?))
}

fn given(alloc: Global) -> Result<Vec<String>, AllocError> {
    let mut names = Vec::with_capacity(alloc, 2)?;
    names.push(String::from_str(alloc, "e")?)?;
    names.push(String::from_str(alloc, "t")?)?;
    Ok(names)
}

// Key, value and shorthand mark of a Property.
fn told(alloc: Global, property: &Node) -> Result<String, AllocError> {
    let key = own_name_at(&property.fields, 1);
    let value = own_name_at(&property.fields, 2);
    let mark = if flag_at(&property.fields, 4) {
        " short"
    } else {
        ""
    };
    format!(in alloc; "{key}: {value}{mark}")
}

#[test]
fn names_are_given_and_shorthands_end(rt: HostRuntime) -> Result<(), Fail> {
    let alloc = rt.alloc();
    let names = given(alloc)?;
    for (default, choices, wanted) in [
        (None, [None, None, None], "a: a short"),
        (None, [None, Some(0), None], "a: e"),
        (None, [Some(0), Some(0), None], "e: e short"),
        (None, [Some(1), Some(0), None], "t: e"),
        (None, [None, Some(9), None], "a: a short"),
        (Some("b"), [None, None, Some(0)], "a: a short"),
        (Some("b"), [None, Some(1), None], "a: t"),
        (Some("b"), [Some(1), Some(1), Some(0)], "t: t short"),
    ] {
        let tree = rename_tree(
            alloc,
            shorthand(alloc, default)?,
            &choices,
            names.as_slice(),
        )?;
        assert!(rt; told(alloc, &tree)?.as_str() == wanted);
    }
    Ok(())
}

#[test]
#[tactic(auto, unfolding(tree_places::specs::Chosen::spare_plain))]
fn a_program_keeps_its_source_type(rt: HostRuntime) -> Result<(), Fail> {
    let alloc = rt.alloc();
    let value = Value::from_str(
        alloc,
        "{\"type\":\"Program\",\"body\":[],\"sourceType\":\"module\"}",
    )?;
    match read_tree(alloc, &value, 0) {
        Ok(program) => {
            let renamed = rename(alloc, program, &[], &[])?;
            assert!(rt; renamed.source_type().is_module());
        }
        Err(_) => assert!(rt; false, "not read"),
    }
    Ok(())
}
