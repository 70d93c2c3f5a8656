//! Fix paths, of literals that are written step by step.

ghost use Rattle.std.specs.Prelude.{◌∷◌, [], codes, pos};
ghost use Rattle.json_text.specs.Json.{null, whole};
ghost use Rattle.oxc_estree.specs.Open.{object_of};
ghost use Rattle.oxc_estree.specs.Out.{plain};

use oxc_estree::{
    CompactFixesSerializer, CompactSerializer, ESTree, JsonSlice, PrettyFixesSerializer,
    Serializer, TracePathPart, envelope_reads_alone, trace_path_parts_compare_by_part,
};
use std::alloc::AllocError;
use std::test::Fail;

// What JSON can't hold.
#[derive(Drop)]
struct Marked;

impl ESTree for Marked {
    ghost meaning = { λ _ _. record { value = null; marks = [] ∷ [] } };

    fn serialize<S: Serializer>(&self, serializer: &mut S) -> Result<(), AllocError> {
        serializer.record_fix_path()?;
        serializer.buffer_mut().print_str("null")
    }
}

#[derive(Drop)]
struct Literal;

impl ESTree for Literal {
    ghost meaning = { λ _ _. object_of
        (record { name = codes "start"; meaning = plain (whole (pos 5)) }
        ∷ record { name = codes "value"; meaning = record { value = null; marks = [] ∷ [] } } ∷ []) };

    fn serialize<S: Serializer>(&self, serializer: &mut S) -> Result<(), AllocError> {
        serializer.begin_struct()?;
        serializer.begin_field("start", true)?;
        5u32.serialize(serializer)?;
        serializer.end_field();
        serializer.begin_field("value", false)?;
        Marked.serialize(serializer)?;
        serializer.end_field();
        serializer.end_struct(false)
    }
}

#[test]
fn fix_paths_lead_to_the_literals(rt: HostRuntime) -> Result<(), Fail> {
    let serializer = CompactFixesSerializer::new(rt.alloc(), false, false)?;
    let text = serializer.serialize_with_fixes(&JsonSlice(&[Literal, Literal]))?;
    assert_eq!(rt;
        text.as_str(),
        "{\"node\":\n[{\"start\":5,\"value\":null},{\"start\":5,\"value\":null}]\n,\"fixes\":[[0],[1]]}"
    );
    Ok(())
}

#[test]
fn no_fixes_in_the_pretty_layout(rt: HostRuntime) -> Result<(), Fail> {
    let serializer = PrettyFixesSerializer::new(rt.alloc(), false, false)?;
    let text = serializer.serialize_with_fixes(&JsonSlice(&[true]))?;
    assert!(rt; text.as_str() == "{\"node\":\n[\n  true\n]\n,\"fixes\":[]}");
    Ok(())
}

// The call succeeds, and nothing is recorded.
#[test]
fn no_path_without_fixes(rt: HostRuntime) -> Result<(), Fail> {
    let mut serializer = CompactSerializer::new(rt.alloc(), false, false)?;
    serializer.record_fix_path()?;
    Literal.serialize(&mut serializer)?;
    assert!(rt; serializer.into_string().as_str() == "{\"start\":5,\"value\":null}");
    Ok(())
}

#[test]
fn equal_parts(rt: HostRuntime) {
    trace_path_parts_compare_by_part();
    envelope_reads_alone();
    assert!(rt; TracePathPart::DUMMY == TracePathPart::Index(0));
    assert!(rt; TracePathPart::Key("a") == TracePathPart::Key("a"));
    assert!(rt; TracePathPart::Key("a") != TracePathPart::Key("b"));
    assert!(rt; TracePathPart::Key("0") != TracePathPart::Index(0));
}
