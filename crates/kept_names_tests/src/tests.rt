//! A function-name and the parameter that shadows it.

use bumpalo::Bump;
use kept_names::{collect_name_symbols, groups_of_places, names_kept};
use mangle_options::{MangleOptions, MangleOptionsKeepNames};
use oxc_str::CompactStr;
use scope_tables::ScopeTables;
use std::alloc::{AllocError, Global};
use std::test::Fail;
use tree_nodes::{Field, FieldList, Kind, Node, NodeList, TreeText};

fn node(kind: Kind, fields: Vec<Field>) -> Node {
    Node {
        kind,
        start: 0,
        end: 0,
        fields: FieldList::from_vec(fields),
    }
}

fn child(alloc: Global, node: Node) -> Result<Field, AllocError> {
    Ok(Field::Child(Box::new(alloc, node)?))
}

fn list(alloc: Global, node: Node) -> Result<Field, AllocError> {
    Ok(Field::List(NodeList::from_vec(vec![in alloc; Some(node)]?)))
}

fn name(alloc: Global) -> Result<Node, AllocError> {
    let text = TreeText::from_string(String::from_str(alloc, "f")?);
    Ok(node(Kind::Identifier, vec![in alloc; Field::Text(text)]?))
}

// `{ return f }`
fn body(alloc: Global) -> Result<Field, AllocError> {
    let argument = child(alloc, name(alloc)?)?;
    let statement = node(Kind::ReturnStatement, vec![in alloc; argument]?);
    let statements = list(alloc, statement)?;
    child(
        alloc,
        node(Kind::BlockStatement, vec![in alloc; statements]?),
    )
}

// The script `(function f(f) { return f })`
fn sample(alloc: Global) -> Result<Node, AllocError> {
    let fields = vec![in alloc;
        child(alloc, name(alloc)?)?,
        Field::Flag(false),
        Field::Flag(false),
        list(alloc, name(alloc)?)?,
        body(alloc)?,
        Field::Flag(false),
    ]?;
    let function = child(alloc, node(Kind::FunctionExpression, fields))?;
    let statement = node(
        Kind::ExpressionStatement,
        vec![in alloc; function, Field::Empty]?,
    );
    let statements = list(alloc, statement)?;
    let fields = vec![in alloc; statements, Field::Word(0), Field::Empty]?;
    Ok(node(Kind::Program, fields))
}

#[test]
fn function_names_are_grouped(rt: HostRuntime) -> Result<(), Fail> {
    let alloc = rt.alloc();
    let root = sample(alloc)?;
    let tables = ScopeTables::build(alloc, &root)?;
    let mut options = MangleOptions::new(alloc);
    let groups = groups_of_places(alloc, &options, false, &tables)?;
    assert_eq!(rt; groups.as_slice(), [Some(4), Some(4), Some(4)].as_slice());
    options.keep_names = MangleOptionsKeepNames::all_true();
    let groups = groups_of_places(alloc, &options, false, &tables)?;
    assert_eq!(rt; groups.as_slice(), [None, Some(4), Some(4)].as_slice());
    options.reserved.insert(CompactStr::new(alloc, "f")?)?;
    let groups = groups_of_places(alloc, &options, false, &tables)?;
    assert_eq!(rt; groups.as_slice(), [None, None, None].as_slice());
    Ok(())
}

#[test]
fn names_of_functions_are_kept(rt: HostRuntime) -> Result<(), Fail> {
    let alloc = rt.alloc();
    let root = sample(alloc)?;
    let tables = ScopeTables::build(alloc, &root)?;
    let keep = MangleOptionsKeepNames::from(true);
    let kept = names_kept(alloc, keep, &tables)?;
    assert_eq!(rt; kept.as_slice(), [true, false, false].as_slice());
    let keep = MangleOptionsKeepNames::all_false();
    let kept = names_kept(alloc, keep, &tables)?;
    assert_eq!(rt; kept.as_slice(), [false, false, false].as_slice());
    Ok(())
}

// How many symbols there are, and whether the first and the second keep their names.
fn symbols_told(
    alloc: Global,
    keep: MangleOptionsKeepNames,
) -> Result<(usize, bool, bool), AllocError> {
    let root = sample(alloc)?;
    let tables = ScopeTables::build(alloc, &root)?;
    let kept = collect_name_symbols(alloc, keep, &tables)?;
    Ok((kept.len(), kept.has_bit(0), kept.has_bit(1)))
}

#[test]
fn symbols_that_keep_names_are_collected(rt: HostRuntime) -> Result<(), Fail> {
    let told = symbols_told(rt.alloc(), MangleOptionsKeepNames::from(true))?;
    assert!(rt; told == (2, true, false));
    let told = symbols_told(rt.alloc(), MangleOptionsKeepNames::all_false())?;
    assert!(rt; told == (2, false, false));
    Ok(())
}

// Whether the symbols are collected in an arena that can hold so much.
fn are_collected(alloc: Global, limit: Option<usize>) -> Result<bool, AllocError> {
    let root = sample(alloc)?;
    let tables = ScopeTables::build(alloc, &root)?;
    let arena = Bump::new(alloc);
    arena.set_allocation_limit(limit);
    let kept = collect_name_symbols(&arena, MangleOptionsKeepNames::all_true(), &tables);
    Ok(kept.is_ok())
}

#[test]
fn symbols_are_collected_in_an_arena(rt: HostRuntime) -> Result<(), Fail> {
    let alloc = rt.alloc();
    assert!(rt; are_collected(alloc, None)?);
    assert!(rt; !are_collected(alloc, Some(0))?);
    Ok(())
}
