//! The classes of a program, by ids, and new names for their private names.

use crate::analysed::{program, semantic};
use crate::programs::{BARE_CLASSES, CLASSES};
use oxc_data_structures::inline_string::InlineString;
use oxc_str::new_const_ident;
use std::alloc::{AllocError, Global};
use std::test::Fail;
use syntax_sem::class::ClassId;
use syntax_sem::node::NodeId;
use tree_semantic::{Classes, PrivateNames};

// The class around a class, and whether it is open.
fn class_told(classes: &Classes<'_>, k: usize) -> Option<(Option<usize>, bool)> {
    if k >= classes.len() || k >= 100 {
        return None;
    }
    let id = ClassId::from_usize(k);
    let parent = match classes.parent(id) {
        Some(parent) => Some(parent.index()),
        None => None,
    };
    Some((parent, classes.is_open(id)))
}

// Classes in whose bodies no name stands.
#[test]
fn bare_classes_lie_in_classes(rt: HostRuntime) -> Result<(), Fail> {
    let program = program(rt.alloc(), BARE_CLASSES)?;
    let semantic = semantic(rt.alloc(), &program)?;
    for (k, wanted) in [
        (0, None),
        (1, Some(0)),
        (2, Some(1)),
        (3, Some(0)),
        (4, None),
    ] {
        assert!(rt;
            class_told(semantic.classes(), k) == Some((wanted, false)),
            "{k}"
        );
    }
    assert!(rt; class_told(semantic.classes(), 5).is_none());
    Ok(())
}

// The n-th private name of a class.
fn private_name<'t>(classes: &Classes<'t>, k: usize, n: usize) -> Option<&'t str> {
    if k >= classes.len() || k >= 100 {
        return None;
    }
    let names = classes.private_names(ClassId::from_usize(k));
    if n < names.len() {
        Some(names[n].as_str())
    } else {
        None
    }
}

#[test]
fn classes_are_told(rt: HostRuntime) -> Result<(), Fail> {
    let program = program(rt.alloc(), CLASSES)?;
    let semantic = semantic(rt.alloc(), &program)?;
    let classes = semantic.classes();
    assert!(rt; class_told(classes, 0) == Some((None, true)), "A");
    assert!(rt;
        class_told(classes, 1) == Some((Some(0), true)),
        "the class in A"
    );
    assert!(rt; class_told(classes, 2) == Some((None, false)), "C");
    assert!(rt; class_told(classes, 3).is_none());
    for (k, n, wanted) in [
        (0, 0, Some("x")),
        (0, 1, None),
        (1, 0, Some("x")),
        (1, 1, Some("z")),
        (2, 0, None),
    ] {
        assert!(rt; private_name(classes, k, n) == wanted, "{n} of {k}");
    }
    Ok(())
}

// The class of the private name at a node.
fn class_at(classes: &Classes<'_>, n: u8) -> Option<usize> {
    match classes.node_class(NodeId::from_usize(n as usize)) {
        Some(class) => Some(class.index()),
        None => None,
    }
}

#[test]
fn private_names_have_classes(rt: HostRuntime) -> Result<(), Fail> {
    let program = program(rt.alloc(), CLASSES)?;
    let semantic = semantic(rt.alloc(), &program)?;
    for (n, wanted) in [
        (2, None),
        (6, Some(0)),
        (9, None),
        (15, Some(0)),
        (21, Some(1)),
        (23, Some(1)),
        (25, None),
        (40, None),
    ] {
        assert!(rt; class_at(semantic.classes(), n) == wanted, "{n}");
    }
    Ok(())
}

// A class without new names, and one in which `x` becomes `e`.
fn new_names<'t>(alloc: Global) -> Result<PrivateNames<'t>, AllocError> {
    let mut names = PrivateNames::new(alloc);
    names.push_class()?;
    names.push_class()?;
    names.push_name(new_const_ident("x"), InlineString::from_str("e"))?;
    Ok(names)
}

// Whether a class has this new name for an old one.
fn becomes(names: &PrivateNames<'_>, k: usize, old: &str, new: &str) -> bool {
    if k >= names.len() || k >= 100 {
        return false;
    }
    match names.get(ClassId::from_usize(k), old) {
        Some(name) => name.as_str() == new,
        None => new == "",
    }
}

#[test]
fn private_names_get_new_ones(rt: HostRuntime) -> Result<(), Fail> {
    let names = new_names(rt.alloc())?;
    assert!(rt; names.len() == 2);
    for (k, old, new) in [(0, "x", ""), (1, "x", "e"), (1, "y", "")] {
        assert!(rt; becomes(&names, k, old, new), "{old} of {k}");
    }
    Ok(())
}
