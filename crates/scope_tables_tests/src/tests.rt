//! What the places of small trees are bound to, and which faults they have.

ghost use Rattle.scope_tables.specs.WholeTree.{AreTables};

use crate::trees::{
    block_function, caught, closures, declared_inside, heritage, joined, named_by_parameter,
    nested, own_member, own_name_reached, private_of_this_alone, two_functions, two_of,
    with_default,
};
use scope_tables::{Faults, ScopeTables};
use std::alloc::{AllocError, Global};
use std::test::Fail;
use tree_nodes::Node;

// The fault that these are alone, or that there is none.
fn fault_name(faults: Faults) -> &'static str {
    let flags = (
        faults.redeclaration,
        faults.crossing,
        faults.sloppy_function,
        faults.undeclared,
        faults.reach,
    );
    match flags {
        (false, false, false, false, false) => "none",
        (true, false, false, false, false) => "redeclaration",
        (false, true, false, false, false) => "crossing",
        (false, false, true, false, false) => "sloppy function",
        (false, false, false, true, false) => "undeclared",
        (false, false, false, false, true) => "reach",
        _ => "many",
    }
}

// Whether this is what the scopes have.
fn has_fault(tables: &ScopeTables<'_>, fault: &str) -> bool
    requires { AreTables tables.now }
{
    fault_name(tables.faults()) == fault && tables.has_fault() == (fault != "none")
}

// Whether the place that has the fault is this one alone.
fn stands_at(tables: &ScopeTables<'_>, fault: &str, at: usize) -> bool
    requires { AreTables tables.now }
{
    for i in 0..tables.list.places.len() {
        let wanted = if i == at { fault } else { "none" };
        if fault_name(tables.faults_at(i)) != wanted {
            return false;
        }
    }
    true
}

// Whether each place is found by its node, and none by the root.
fn finds_places(tables: &ScopeTables<'_>) -> bool
    requires { AreTables tables.now }
{
    for (i, place) in tables.list.places.iter().enumerate() {
        if tables.index_of_node(place.node) != Some(i) {
            return false;
        }
    }
    tables.index_of_node(0).is_none()
}

fn has_bindings(tables: &ScopeTables<'_>, bindings: &[Option<u32>]) -> bool
    requires { AreTables tables.now }
{
    tables.bindings() == bindings
}

// Whether the tree has these bindings, and this fault at this place and no other.
fn is_told(
    alloc: Global,
    root: &Node,
    bindings: &[Option<u32>],
    fault: &str,
    at: usize,
) -> Result<bool, AllocError> {
    let tables = ScopeTables::build(alloc, root)?;
    Ok(
        has_bindings(&tables, bindings)
            && has_fault(&tables, fault)
            && stands_at(&tables, fault, at)
            && finds_places(&tables),
    )
}

#[test]
fn faultless_trees_are_told(rt: HostRuntime) -> Result<(), Fail> {
    let alloc = rt.alloc();
    let bindings = [Some(3), Some(7), Some(9), Some(11), Some(3), Some(7)];
    assert!(rt; is_told(alloc, &closures(alloc)?, &bindings, "none", 0)?);
    let bindings = [Some(3), Some(5), Some(9)];
    assert!(rt; is_told(alloc, &declared_inside(alloc)?, &bindings, "none", 0)?);
    Ok(())
}

#[test]
fn redeclarations_are_told(rt: HostRuntime) -> Result<(), Fail> {
    let alloc = rt.alloc();
    let twice = [Some(3), Some(3)];
    let fault = "redeclaration";
    assert!(rt;
        is_told(alloc, &two_of(alloc, "let")?, &twice, fault, 1)?,
        "let, var"
    );
    assert!(rt;
        is_told(alloc, &two_of(alloc, "var")?, &twice, "none", 0)?,
        "var, var"
    );
    Ok(())
}

#[test]
fn functions_are_told(rt: HostRuntime) -> Result<(), Fail> {
    let alloc = rt.alloc();
    let twice = [Some(3), Some(3)];
    let fault = "redeclaration";
    assert!(rt;
        is_told(alloc, &two_functions(alloc)?, &twice, fault, 1)?,
        "in a block"
    );
    assert!(rt;
        is_told(alloc, &joined(alloc)?, &twice, "none", 0)?,
        "beside a var"
    );
    Ok(())
}

#[test]
fn crossings_are_told(rt: HostRuntime) -> Result<(), Fail> {
    let alloc = rt.alloc();
    let apart = [Some(4), Some(8)];
    assert!(rt;
        is_told(alloc, &nested(alloc, "var")?, &apart, "crossing", 1)?,
        "var"
    );
    assert!(rt;
        is_told(alloc, &nested(alloc, "let")?, &apart, "none", 0)?,
        "let"
    );
    Ok(())
}

#[test]
fn catch_parameters_are_told(rt: HostRuntime) -> Result<(), Fail> {
    let alloc = rt.alloc();
    let fault = "redeclaration";
    assert!(rt;
        is_told(
            alloc,
            &caught(alloc, "var")?,
            &[Some(4), Some(8)],
            "crossing",
            1
        )?,
        "var"
    );
    assert!(rt;
        is_told(alloc, &caught(alloc, "let")?, &[Some(4), Some(4)], fault, 1)?,
        "let"
    );
    assert!(rt;
        is_told(
            alloc,
            &caught(alloc, "block")?,
            &[Some(4), Some(9)],
            "none",
            0
        )?,
        "block"
    );
    Ok(())
}

#[test]
fn sloppy_functions_are_told(rt: HostRuntime) -> Result<(), Fail> {
    let alloc = rt.alloc();
    let fault = "sloppy function";
    assert!(rt;
        is_told(alloc, &block_function(alloc, false)?, &[Some(3)], fault, 0)?,
        "script"
    );
    assert!(rt;
        is_told(alloc, &block_function(alloc, true)?, &[Some(3)], "none", 0)?,
        "module"
    );
    Ok(())
}

#[test]
fn undeclared_private_names_are_told(rt: HostRuntime) -> Result<(), Fail> {
    let alloc = rt.alloc();
    let fault = "undeclared";
    assert!(rt;
        is_told(alloc, &private_of_this_alone(alloc)?, &[None], fault, 0)?,
        "no class"
    );
    assert!(rt;
        is_told(alloc, &heritage(alloc)?, &[None, None], fault, 0)?,
        "heritage"
    );
    assert!(rt;
        is_told(alloc, &own_member(alloc)?, &[None, None], "none", 0)?,
        "own member"
    );
    Ok(())
}

#[test]
fn reaches_are_told(rt: HostRuntime) -> Result<(), Fail> {
    let alloc = rt.alloc();
    let bindings = [Some(2), Some(4), Some(9), Some(9)];
    assert!(rt;
        is_told(alloc, &with_default(alloc, false)?, &bindings, "reach", 2)?,
        "body"
    );
    let bindings = [Some(2), Some(3), Some(5), Some(3), Some(3)];
    assert!(rt;
        is_told(alloc, &with_default(alloc, true)?, &bindings, "none", 0)?,
        "parameter"
    );
    Ok(())
}

#[test]
fn function_names_are_told(rt: HostRuntime) -> Result<(), Fail> {
    let alloc = rt.alloc();
    let bindings = [Some(3), Some(5), Some(10), Some(10)];
    assert!(rt;
        is_told(alloc, &own_name_reached(alloc)?, &bindings, "reach", 2)?,
        "body"
    );
    let bindings = [Some(3), Some(4), Some(4)];
    assert!(rt;
        is_told(alloc, &named_by_parameter(alloc)?, &bindings, "none", 0)?,
        "parameter"
    );
    Ok(())
}

// The shadower of the i-th place, where there is one.
fn shadower(tables: &ScopeTables<'_>, i: usize) -> Option<u32>
    requires { AreTables tables.now }
{
    if i < tables.list.places.len() {
        tables.shadower(i)
    } else {
        None
    }
}

// What the scope declares under its first name, function-names aside or not, and whether no other may.
fn declared(tables: &ScopeTables<'_>, scope: u32) -> (Option<u32>, Option<u32>, bool) {
    let declarations = &tables.resolved.declarations;
    (
        declarations.plain_binder(Some(scope), 0),
        declarations.binder(Some(scope), 0),
        declarations.is_single(Some(scope), 0),
    )
}

// The nearest of them outwards from the scope.
fn nearest(tables: &ScopeTables<'_>, scope: u32) -> Option<u32>
    requires { AreTables tables.now }
{
    let list = &tables.list;
    if (scope as usize) < list.scopes.len() {
        tables
            .resolved
            .declarations
            .nearest_binder(list, Some(scope), 0)
    } else {
        None
    }
}

#[test]
fn a_function_name_is_shadowed(rt: HostRuntime) -> Result<(), Fail> {
    let alloc = rt.alloc();
    let root = named_by_parameter(alloc)?;
    let tables = ScopeTables::build(alloc, &root)?;
    assert!(rt; shadower(&tables, 0) == Some(4), "function-name");
    assert!(rt; shadower(&tables, 1).is_none(), "parameter");
    Ok(())
}

#[test]
fn declarations_are_told(rt: HostRuntime) -> Result<(), Fail> {
    let alloc = rt.alloc();
    let root = named_by_parameter(alloc)?;
    let tables = ScopeTables::build(alloc, &root)?;
    assert!(rt;
        declared(&tables, 1) == (Some(4), Some(4), false),
        "function"
    );
    assert!(rt; declared(&tables, 0) == (None, None, false), "root");
    assert!(rt; nearest(&tables, 1) == Some(4), "nearest");
    Ok(())
}
