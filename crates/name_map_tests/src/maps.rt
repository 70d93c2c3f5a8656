//! Maps that are read, and lists of names.

use name_map::{MapReadError, PlaceNames, read_map};
use serde_json::Value;
use std::alloc::Global;
use std::test::Fail;

// How many names and marks the map of a text has.
fn counts(alloc: Global, text: &str) -> Result<Option<(usize, usize)>, Fail> {
    match read_map(alloc, &Value::from_str(alloc, text)?) {
        Ok(map) => Ok(Some((map.names().len(), map.marks().len()))),
        Err(MapReadError::BadForm) => Ok(None),
        Err(MapReadError::Memory) => Err(Fail::from("memory")),
    }
}

#[test]
fn maps_are_read_or_refused(rt: HostRuntime) -> Result<(), Fail> {
    let alloc = rt.alloc();
    for (text, wanted) in [
        (
            "{\"names\":[[0,\"x\"],[2,\"x\"]],\"marks\":[0]}",
            Some((2, 1)),
        ),
        ("{\"marks\":[],\"names\":[]}", Some((0, 0))),
        ("{\"names\":[],\"marks\":[4294967295]}", Some((0, 1))),
        ("{\"names\":[],\"marks\":[4294967296]}", None),
        ("{\"names\":[[0,\"x\",1]],\"marks\":[]}", None),
        ("{\"names\":[[\"x\",0]],\"marks\":[]}", None),
        ("{\"names\":[[0,\"x\"]]}", None),
        ("{\"names\":[],\"marks\":[],\"more\":[]}", None),
        ("[]", None),
    ] {
        assert_eq!(rt; counts(alloc, text)?, wanted);
    }
    Ok(())
}

#[test]
fn names_are_listed(rt: HostRuntime) -> Result<(), Fail> {
    let alloc = rt.alloc();
    let mut names = PlaceNames::new(alloc);
    names.push(3, "x")?;
    names.push(1, "y")?;
    assert_eq!(rt; names.len(), 2);
    assert_eq!(rt; names.get(1), Some((1, "y")));
    assert!(rt; names.get(2).is_none());
    Ok(())
}
