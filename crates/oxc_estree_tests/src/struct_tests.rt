//! What structs look like, by the flags and in both layouts.

ghost use Rattle.std.specs.Prelude.{◌++◌, codes, false};
ghost use Rattle.json_text.specs.Json.{string, truth};
ghost use Rattle.json_text.specs.Units.{units_of};
ghost use Rattle.oxc_estree.specs.Open.{js_field, object_of, span_fields, ts_field};
ghost use Rattle.oxc_estree.specs.Out.{plain};

use oxc_data_structures::code_buffer::CodeBuffer;
use oxc_estree::{
    CompactFixesSerializer, CompactFormatter, CompactSerializer, Config, ConfigFixes,
    ConfigNoFixes, ESTree, ESTreeSerializer, ESTreeSpan, ESTreeStructSerializer, Fields,
    FlatStructSerializer, Formatter, JsonSlice, JsonStr, PrettyFormatter, PrettySerializer,
    Serializer, StructSerializer,
};
use std::alloc::{AllocError, Global};
use std::test::Fail;

#[derive(Clone, Copy, Drop)]
struct Place {
    start: u32,
    end: u32,
}

impl ESTreeSpan for Place {
    ghost start = { λ p. p.start };

    ghost end = { λ p. p.end };

    fn range(self) -> [u32; 2] {
        [self.start, self.end]
    }
}

impl Fields for Place {
    ghost fields = { λ p f. span_fields f p.start p.end };

    fn serialize_fields<P: StructSerializer>(&self, serializer: &mut P) -> Result<(), AllocError> {
        serializer.serialize_span(*self)
    }
}

#[derive(Drop)]
struct Named<'a> {
    place: Place,
    name: &'a str,
}

impl<'a> ESTree for Named<'a> {
    ghost meaning = { λ n f. object_of
        (span_fields f n.place.start n.place.end
        ++ (js_field f (codes "raw") (plain (string (units_of n.name.now)))
        ++ ts_field f (codes "optional") (plain (truth false)))) };

    fn serialize<S: Serializer>(&self, serializer: &mut S) -> Result<(), AllocError> {
        let mut state = ESTreeStructSerializer::new(serializer)?;
        FlatStructSerializer(&mut state).write(&self.place)?;
        state.serialize_js_field("raw", &JsonStr(self.name))?;
        state.serialize_ts_field("optional", &false)?;
        state.end()
    }
}

// Whether a value is written so, under the flags for TypeScript's fields and for ranges.
fn is_text<C: Config + Drop, F: Formatter + Drop, T: ESTree>(
    alloc: Global,
    flags: (bool, bool),
    value: &T,
    text: &str,
) -> Result<bool, AllocError> {
    let mut serializer = ESTreeSerializer::<C, F>::with_capacity(alloc, 9, flags.0, flags.1)?;
    value.serialize(&mut serializer)?;
    Ok(serializer.into_string().as_str() == text)
}

fn is_pretty<T: ESTree>(alloc: Global, value: &T, text: &str) -> Result<bool, AllocError> {
    is_text::<ConfigFixes, PrettyFormatter, T>(alloc, (false, true), value, text)
}

const NAMED: Named<'static> = Named {
    place: Place { start: 1, end: 5 },
    name: "x",
};

#[test]
fn fields_by_flags(rt: HostRuntime) -> Result<(), Fail> {
    let rows = [
        (false, false, "{\"start\":1,\"end\":5,\"raw\":\"x\"}"),
        (
            false,
            true,
            "{\"start\":1,\"end\":5,\"range\":[1,5],\"raw\":\"x\"}",
        ),
        (true, false, "{\"start\":1,\"end\":5,\"optional\":false}"),
        (
            true,
            true,
            "{\"start\":1,\"end\":5,\"range\":[1,5],\"optional\":false}",
        ),
    ];
    for (ts, ranges, want) in rows {
        let flags = (ts, ranges);
        assert!(rt;
            is_text::<ConfigNoFixes, CompactFormatter, Named>(rt.alloc(), flags, &NAMED, want)?
        );
    }
    Ok(())
}

#[test]
fn pretty_texts(rt: HostRuntime) -> Result<(), Fail> {
    let lists = [JsonSlice(&[]), JsonSlice(&[None, Some(true)])];
    let text = "[\n  [],\n  [\n    null,\n    true\n  ]\n]";
    assert!(rt; is_pretty(rt.alloc(), &JsonSlice(&lists), text)?);
    assert!(rt;
        is_pretty(
            rt.alloc(),
            &NAMED,
            "{\n  \"start\": 1,\n  \"end\": 5,\n  \"range\": [\n    1,\n    5\n  ],\n  \"raw\": \"x\"\n}"
        )?
    );
    Ok(())
}

// The text of a struct of two fields.
fn struct_of_two<T: ESTree>(alloc: Global, none: &T, one: &T) -> Result<String, AllocError> {
    let mut serializer = CompactSerializer::new(alloc, false, false)?;
    let mut state = ESTreeStructSerializer::new(&mut serializer)?;
    state.serialize_field("none", none)?;
    state.serialize_field("one", one)?;
    state.end()?;
    Ok(serializer.into_string())
}

#[test]
fn lists_in_a_struct(rt: HostRuntime) -> Result<(), Fail> {
    let none = JsonSlice(&[]);
    let one = JsonSlice(&[JsonStr("one")]);
    let text = struct_of_two(rt.alloc(), &none, &one)?;
    assert!(rt; text.as_str() == "{\"none\":[],\"one\":[\"one\"]}");
    Ok(())
}

fn one_by_alias(alloc: Global) -> Result<String, AllocError> {
    let mut serializer = PrettySerializer::new(alloc, false, false)?;
    JsonSlice(&[true]).serialize(&mut serializer)?;
    Ok(serializer.into_string())
}

fn one_with_fixes(alloc: Global) -> Result<String, AllocError> {
    let serializer = CompactFixesSerializer::new(alloc, false, false)?;
    serializer.serialize_with_fixes(&JsonSlice(&[true]))
}

#[test]
fn serializers_by_alias(rt: HostRuntime) -> Result<(), Fail> {
    assert!(rt; one_by_alias(rt.alloc())?.as_str() == "[\n  true\n]");
    let text = one_with_fixes(rt.alloc())?;
    assert!(rt; text.as_str() == "{\"node\":\n[true]\n,\"fixes\":[]}");
    Ok(())
}

#[test]
fn levels_that_were_not_opened(rt: HostRuntime) -> Result<(), Fail> {
    let mut buffer = CodeBuffer::new(rt.alloc());
    let mut formatter = PrettyFormatter::new();
    formatter.after_last_element(&mut buffer)?;
    formatter.before_first_element(&mut buffer)?;
    assert!(rt; buffer.as_str() == "\n\n  ");
    Ok(())
}
