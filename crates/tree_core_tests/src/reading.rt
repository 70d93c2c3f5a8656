//! Which values are programs, where the limits lie, and how a program is looked into.

use crate::texts::{json, read};
use serde_json::Value;
use std::alloc::Global;
use std::test::Fail;
use tree_core::{Field, Program, SourceType, is_too_large};
use tree_nodes::Node;

const MODULE: &str = "{'type':'Program','body':[],'sourceType':'module'}";

// The source type, or why the value is not read.
fn outcome(alloc: Global, text: &str, more: usize) -> Result<String, Fail> {
    let text = json(alloc, text)?;
    match read(alloc, text.as_str(), more)? {
        Ok(program) => Ok(format!(in alloc; "{:?}", program.source_type())?),
        Err(error) => Ok(format!(in alloc; "{error}")?),
    }
}

#[test]
fn values_that_are_programs(rt: HostRuntime) -> Result<(), Fail> {
    for (text, wanted) in [
        ("null", "bad tree"),
        (
            "{'sourceType':'script','body':[],'type':'Program'}",
            "Script",
        ),
        (
            "{'type':'Program','sourceType':'commonjs','body':[]}",
            "CommonJs",
        ),
        ("{'type':'Program','sourceType':'x','body':[]}", "bad tree"),
        ("{'type':'Program','body':[]}", "bad tree"),
        ("{'type':'Program','sourceType':'script'}", "bad tree"),
        (
            "{'type':'Program','sourceType':'script','body':[],'range':null}",
            "Script",
        ),
        (
            "{'type':'Program','sourceType':'script','body':[],'range':1}",
            "bad tree",
        ),
        (
            "{'type':'Program','sourceType':'script','body':[],'start':4294967295}",
            "Script",
        ),
        (
            "{'type':'Program','sourceType':'script','body':[],'end':4294967296}",
            "bad tree",
        ),
        (
            "{'type':'Program','sourceType':'script','body':[],'start':-1}",
            "bad tree",
        ),
        (
            "{'type':'Program','sourceType':'script','body':[{'type':'Program','sourceType':'script','body':[]}]}",
            "bad tree",
        ),
    ] {
        assert!(rt; outcome(rt.alloc(), text, 0)?.as_str() == wanted, "{text}");
    }
    Ok(())
}

#[test]
fn objects_and_names_are_counted_together(rt: HostRuntime) -> Result<(), Fail> {
    for (text, more, wanted) in [
        (MODULE, 1_073_741_822, "Module"),
        (MODULE, 1_073_741_823, "too large"),
        ("null", 1_073_741_824, "too large"),
    ] {
        assert!(rt;
            outcome(rt.alloc(), text, more)?.as_str() == wanted,
            "{more}"
        );
    }
    let empty = Value::from_str(rt.alloc(), "{}")?;
    assert!(rt; is_too_large(&empty, 1_073_741_823) && !is_too_large(&empty, 1_073_741_822));
    Ok(())
}

fn is_empty_module(root: &Node) -> bool {
    matches!(root.fields.get(0), Some(Field::List(body)) if body.len() == 0)
        && matches!(root.fields.get(1), Some(Field::Word(1)))
        && matches!(root.fields.get(2), Some(Field::Empty))
}

#[test]
fn a_program_is_looked_into(rt: HostRuntime) -> Result<(), Fail> {
    let text = json(rt.alloc(), MODULE)?;
    let program = read(rt.alloc(), text.as_str(), 0)?.ok().ok_or("a program")?;
    assert!(rt; program.source_type().is_module() && !program.source_type().is_commonjs());
    assert!(rt; is_empty_module(program.root()));
    let same = Program::from_root(program.into_root());
    assert!(rt; same.source_type() == SourceType::Module);
    Ok(())
}
