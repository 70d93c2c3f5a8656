//! What maps restore of a small program.

use crate::programs::{MANGLED, program};
use name_map::{MapReadError, RestoreError, read_map, restore};
use serde_json::Value;
use std::alloc::Global;
use std::test::Fail;

// What becomes of the program under the map of a text.
fn outcome(alloc: Global, text: &str) -> Result<&'static str, Fail> {
    let map = match read_map(alloc, &Value::from_str(alloc, text)?) {
        Ok(map) => map,
        Err(MapReadError::BadForm) => return Ok("bad form"),
        Err(MapReadError::Memory) => return Ok("memory"),
    };
    match restore(alloc, &program(alloc, MANGLED)?, &map) {
        Ok(_) => Ok("restored"),
        Err(RestoreError::BadMap) => Ok("bad map"),
        Err(RestoreError::Memory) => Ok("memory"),
    }
}

#[test]
fn maps_are_applied_or_refused(rt: HostRuntime) -> Result<(), Fail> {
    let alloc = rt.alloc();
    for (text, wanted) in [
        (
            "{\"names\":[[0,\"x\"],[2,\"x\"]],\"marks\":[0]}",
            "restored",
        ),
        ("{\"names\":[],\"marks\":[]}", "restored"),
        ("{\"names\":[[2,\"x\"],[0,\"x\"]],\"marks\":[0]}", "bad map"),
        ("{\"names\":[[0,\"x\"],[2,\"x\"]],\"marks\":[1]}", "bad map"),
        ("{\"names\":[[0,\"x\"],[1,\"x\"]],\"marks\":[]}", "bad map"),
        ("{\"names\":[[3,\"x\"]],\"marks\":[]}", "bad map"),
        ("{\"names\":[[0,\"1\"]],\"marks\":[]}", "bad map"),
        ("{\"names\":[],\"marks\":[0]}", "bad map"),
        ("{\"names\":[[0,\"x\"]]}", "bad form"),
        ("{\"names\":[[0,\"x\",1]],\"marks\":[]}", "bad form"),
        ("{\"names\":[],\"marks\":[4294967296]}", "bad form"),
    ] {
        assert_eq!(rt; outcome(alloc, text)?, wanted);
    }
    Ok(())
}
