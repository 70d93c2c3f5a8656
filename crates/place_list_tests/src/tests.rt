//! The tables of a tree, and what is read from them.

ghost use Rattle.place_list.specs.Bounds.{IsBounded};
ghost use Rattle.place_list.specs.TableViews.{list_view};

use crate::trees::{sample, twice};
use place_list::{
    PlaceEntry, PlaceList, ScopeKind, Value, list_places, list_places_and_nodes,
    nodes_are_numbered, openers_open_scopes, same_number, sites_are_nodes,
};
use std::test::Fail;

#[test]
fn scopes_are_found(rt: HostRuntime) -> Result<(), Fail> {
    let root = sample(rt.alloc())?;
    let list = list_places(rt.alloc(), &root)?;
    let scopes = [
        (None, Some(0)),
        (Some(0), Some(1)),
        (Some(1), Some(2)),
        (Some(1), Some(1)),
        (Some(1), Some(1)),
    ];
    assert!(rt; list.scopes.len() == scopes.len());
    for (scope, wanted) in list.scopes.iter().zip(scopes) {
        assert!(rt; (scope.parent, scope.var_scope) == wanted, "scopes");
    }
    Ok(())
}

// Whether it stands in a head, in a declarator, and as the name of a function without one.
fn told(place: &PlaceEntry<'_>) -> (bool, bool, bool) {
    let setting = place.setting;
    (
        setting.head.is_some(),
        setting.declarator.is_some(),
        matches!(setting.value, Value::AnonymousFunction),
    )
}

#[test]
fn places_are_found(rt: HostRuntime) -> Result<(), Fail> {
    let root = sample(rt.alloc())?;
    let list = list_places(rt.alloc(), &root)?;
    let places = [
        (2, Some(0), "f", (false, false, false)),
        (3, Some(1), "p", (true, false, false)),
        (7, Some(1), "x", (false, true, true)),
        (9, Some(2), "z", (false, false, false)),
        (12, Some(3), "y", (false, false, false)),
    ];
    assert!(rt; list.places.len() == places.len());
    for (place, wanted) in list.places.iter().zip(places) {
        let found = (place.node, place.setting.scope, place.name, told(place));
        assert!(rt; found == wanted, "{}", place.name);
    }
    Ok(())
}

// The scope around a scope, and its var scope.
fn around(list: &PlaceList<'_>, scope: u32) -> Option<(Option<u32>, Option<u32>)>
    requires { IsBounded (list_view list.now) }
{
    if (scope as usize) < list.scopes.len() {
        Some((list.parent(scope), list.var_scope(scope)))
    } else {
        None
    }
}

// Whether a scope lies in another, and whether it is the other.
fn inside(list: &PlaceList<'_>, inner: u32, outer: u32) -> Option<(bool, bool)>
    requires { IsBounded (list_view list.now) }
{
    let len = list.scopes.len();
    if (inner as usize) < len && (outer as usize) < len {
        let (inner, outer) = (Some(inner), Some(outer));
        Some((
            list.is_inside(inner, outer),
            list.is_same_scope(inner, outer),
        ))
    } else {
        None
    }
}

#[test]
fn scopes_are_read_outwards(rt: HostRuntime) -> Result<(), Fail> {
    let root = sample(rt.alloc())?;
    let list = list_places(rt.alloc(), &root)?;
    assert!(rt; around(&list, 3) == Some((Some(1), Some(1))));
    for (inner, outer, found) in [
        (3, 0, (true, false)),
        (3, 2, (false, false)),
        (3, 3, (true, true)),
    ] {
        assert!(rt;
            inside(&list, inner, outer) == Some(found),
            "{inner} {outer}"
        );
    }
    Ok(())
}

// Whether a place has the name, and whether it lies in its var scope.
fn named(list: &PlaceList<'_>, i: usize, name: &str) -> Option<(bool, bool)>
    requires { IsBounded (list_view list.now) }
{
    if i < list.places.len() {
        Some((list.place(i).name == name, list.lies_in_var_scope(i)))
    } else {
        None
    }
}

// The scope of a head, and the class body around a class body.
fn head_and_class(list: &PlaceList<'_>) -> Option<(u32, Option<u32>)>
    requires { IsBounded (list_view list.now) }
{
    if list.heads.len() == 1 && list.class_bodies.len() == 1 {
        Some((list.head(0).scope, list.outer_class(0)))
    } else {
        None
    }
}

#[test]
fn places_are_read(rt: HostRuntime) -> Result<(), Fail> {
    let root = sample(rt.alloc())?;
    let list = list_places(rt.alloc(), &root)?;
    assert!(rt; named(&list, 2, "x") == Some((true, true)));
    assert!(rt; named(&list, 4, "y") == Some((true, false)));
    assert!(rt; head_and_class(&list) == Some((1, None)));
    assert!(rt; same_number(None, None) && !same_number(None, Some(0)));
    Ok(())
}

// The node of a scope, whether it is the top level, a block, and strict.
fn opened(list: &PlaceList<'_>, scope: u32) -> Option<(u32, bool, bool, bool)> {
    if (scope as usize) < list.scopes.len() {
        let entry = list.scope(scope);
        let is_top = matches!(entry.kind, ScopeKind::TopLevel);
        let is_block = matches!(entry.kind, ScopeKind::Block);
        Some((entry.node, is_top, is_block, entry.strict))
    } else {
        None
    }
}

#[test]
fn scopes_have_kinds(rt: HostRuntime) -> Result<(), Fail> {
    let root = twice(rt.alloc())?;
    let list = list_places_and_nodes(rt.alloc(), &root)?;
    assert!(rt; list.scopes.len() == 3);
    assert!(rt; opened(&list, 0) == Some((0, true, false, false)));
    assert!(rt; opened(&list, 2) == Some((4, false, true, false)));
    Ok(())
}

// The scope in which a node stands.
fn scope_of(list: &PlaceList<'_>, node: u32) -> Option<u32> {
    if (node as usize) < list.node_entries.len() {
        list.node(node).scope
    } else {
        None
    }
}

#[test]
fn nodes_and_names_have_numbers(rt: HostRuntime) -> Result<(), Fail> {
    let root = twice(rt.alloc())?;
    let list = list_places_and_nodes(rt.alloc(), &root)?;
    assert!(rt; list.names == 1 && list.places.len() == 2);
    for place in list.places.iter() {
        assert!(rt; place.name_number == 0);
    }
    let parents = [0, 0, 1, 2, 0, 4, 5];
    assert!(rt; list.node_entries.len() == parents.len());
    for (node, parent) in list.node_entries.iter().zip(parents) {
        assert!(rt; node.parent == parent);
    }
    assert!(rt; scope_of(&list, 6) == Some(2));
    Ok(())
}

#[test]
fn laws_are_called(_rt: HostRuntime) {
    nodes_are_numbered();
    openers_open_scopes();
    sites_are_nodes();
}
