//! New private names, by class.

use crate::mangled::program;
use crate::programs::{CLASSES, OPEN, SHARED};
use oxc_mangler::Mangler;
use std::alloc::Global;
use std::test::Fail;
use syntax_sem::class::ClassId;
use tree_semantic::PrivateNames;

// Whether a class has this new name for an old one.
fn becomes(names: &PrivateNames<'_>, k: usize, old: &str, new: &str) -> bool {
    if k >= names.len() || k >= 100 {
        return false;
    }
    match names.get(ClassId::from_usize(k), old) {
        Some(name) => name.as_str() == new,
        None => new == "",
    }
}

// Whether a class of a program that is mangled has this new name for an old one.
fn is_renamed(alloc: Global, text: &str, k: usize, old: &str, new: &str) -> Result<bool, Fail> {
    let program = program(alloc, text, 0)?;
    match Mangler::new().build(alloc, &program) {
        Ok(mangled) => Ok(becomes(&mangled.class_private_mappings, k, old, new)),
        Err(_) => Err(Fail::from("not mangled")),
    }
}

#[test]
fn private_names_get_names(rt: HostRuntime) -> Result<(), Fail> {
    for (text, k, old, new) in [
        (CLASSES, 0, "x", "e"),
        (CLASSES, 0, "y", "t"),
        (CLASSES, 0, "z", ""),
        (CLASSES, 1, "z", "n"),
        (SHARED, 0, "x", "e"),
        (SHARED, 1, "x", "t"),
        (SHARED, 1, "y", "n"),
        (OPEN, 0, "e", ""),
        (OPEN, 1, "y", "t"),
    ] {
        assert!(rt;
            is_renamed(rt.alloc(), text, k, old, new)?,
            "{old} in {text}"
        );
    }
    Ok(())
}
