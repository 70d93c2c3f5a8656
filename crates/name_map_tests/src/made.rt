//! Maps that are made of two programs, and names that are given by a list.

use crate::programs::{MANGLED, SOURCE, program};
use name_map::{
    MapError, NameMap, PlaceNames, RestoreError, can_take_names, make_map, restore, with_names,
};
use std::alloc::Global;
use std::test::Fail;
use tree_core::Program;

fn map(alloc: Global, before: &Program, after: &Program) -> Result<NameMap, Fail> {
    match make_map(alloc, before, after) {
        Ok(map) => Ok(map),
        Err(MapError::NotRenamed) => Err(Fail::from("not renamed")),
        Err(MapError::Memory) => Err(Fail::from("memory")),
    }
}

// The program that a map gives back.
fn restored(alloc: Global, program: &Program, map: &NameMap) -> Result<Program, Fail> {
    match restore(alloc, program, map) {
        Ok(program) => Ok(program),
        Err(RestoreError::BadMap) => Err(Fail::from("bad map")),
        Err(RestoreError::Memory) => Err(Fail::from("memory")),
    }
}

// Whether nothing is to be undone from the one to the other.
fn are_same(alloc: Global, before: &Program, after: &Program) -> Result<bool, Fail> {
    let map = map(alloc, before, after)?;
    Ok(map.names().len() == 0 && map.marks().is_empty())
}

#[test]
fn a_map_is_made_and_undoes(rt: HostRuntime) -> Result<(), Fail> {
    let alloc = rt.alloc();
    let before = program(alloc, SOURCE)?;
    let after = program(alloc, MANGLED)?;
    let map = map(alloc, &before, &after)?;
    assert_eq!(rt; map.names().get(0), Some((0, "x")));
    assert_eq!(rt; map.names().get(1), Some((2, "x")));
    assert_eq!(rt; map.names().len(), 2);
    assert_eq!(rt; map.marks().first(), Some(&0));
    assert!(rt; are_same(alloc, &before, &restored(alloc, &after, &map)?)?);
    Ok(())
}

#[test]
fn no_map_undoes_a_mark_that_is_new(rt: HostRuntime) -> Result<(), Fail> {
    let alloc = rt.alloc();
    let before = program(alloc, MANGLED)?;
    let after = program(alloc, SOURCE)?;
    assert!(rt; matches!(make_map(alloc, &before, &after), Err(MapError::NotRenamed)));
    Ok(())
}

// The program under a name for one place, if the place can take it.
fn named(
    alloc: Global,
    program: &Program,
    place: u32,
    name: &str,
) -> Result<Option<Program>, Fail> {
    let mut names = PlaceNames::new(alloc);
    names.push(place, name)?;
    if !can_take_names(alloc, program, &names)? {
        return Ok(None);
    }
    Ok(Some(with_names(alloc, program, &names)?))
}

#[test]
fn places_take_names(rt: HostRuntime) -> Result<(), Fail> {
    let alloc = rt.alloc();
    let source = program(alloc, SOURCE)?;
    for (place, name, wanted) in [
        (0, "e", true),
        (1, "e", false),
        (2, "e", true),
        (3, "e", false),
        (0, "1", false),
    ] {
        assert_eq!(rt; named(alloc, &source, place, name)?.is_some(), wanted);
    }
    Ok(())
}

#[test]
fn names_come_with_their_marks(rt: HostRuntime) -> Result<(), Fail> {
    let alloc = rt.alloc();
    let source = program(alloc, SOURCE)?;
    let Some(first) = named(alloc, &source, 0, "e")? else {
        return Err(Fail::from("refused"));
    };
    let Some(both) = named(alloc, &first, 2, "e")? else {
        return Err(Fail::from("refused"));
    };
    assert!(rt; are_same(alloc, &program(alloc, MANGLED)?, &both)?);
    Ok(())
}
