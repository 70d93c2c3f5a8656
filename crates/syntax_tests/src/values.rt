//! Constant values and spans.

use oxc_estree::{CompactSerializer, ESTreeStructSerializer, StructSerializer};
use oxc_str::CompactStr;
use std::alloc::{AllocError, Global};
use std::test::Fail;
use syntax_sem::constant_value::ConstantValue;
use syntax_sem::span::Span;

#[test]
fn constant_values(rt: HostRuntime) -> Result<(), Fail> {
    let alloc = rt.alloc();
    let a = ConstantValue::String(CompactStr::new(alloc, "a")?);
    let same = ConstantValue::String(CompactStr::new(alloc, "a")?);
    let other = ConstantValue::String(CompactStr::new(alloc, "b")?);
    assert!(rt; a == same && a != other);
    Ok(())
}

// The text of an object that has a span alone.
fn text_of_span(alloc: Global, span: Span, ranges: bool) -> Result<String, AllocError> {
    let mut serializer = CompactSerializer::new(alloc, false, ranges)?;
    let mut state = ESTreeStructSerializer::new(&mut serializer)?;
    state.serialize_span(span)?;
    state.end()?;
    Ok(serializer.into_string())
}

#[test]
fn texts_of_spans(rt: HostRuntime) -> Result<(), Fail> {
    let span = Span::new(4, 4_294_967_295);
    assert!(rt; span.start == 4 && span.end == 4_294_967_295);
    let rows = [
        (false, "{\"start\":4,\"end\":4294967295}"),
        (
            true,
            "{\"start\":4,\"end\":4294967295,\"range\":[4,4294967295]}",
        ),
    ];
    for (ranges, want) in rows {
        let text = text_of_span(rt.alloc(), span, ranges)?;
        assert!(rt; text.as_str() == want);
    }
    Ok(())
}
