//! Types of the tests' own that implement each trait.

ghost use Rattle.std.specs.Prelude.{◌≡◌, false, refl, true, [], OnErr, OnOk};
ghost use Rattle.json_text.specs.Layout.{compact};
ghost use Rattle.json_text.specs.Text.{key_text};
ghost use Rattle.json_text.specs.Units.{units_of};
ghost use Rattle.oxc_data_structures.specs.CodeBuffer.{Appends};
ghost use Rattle.oxc_estree.specs.Refused.{IsPartlyPrinted};

use crate::plain_strings::print_quoted_by_chars;
use oxc_data_structures::code_buffer::CodeBuffer;
use oxc_estree::{
    CompactFormatter, Config, ESTree, ESTreeSequenceSerializer, ESTreeSerializer, ESTreeSpan,
    ESTreeStructSerializer, Formatter, JsonSlice, PrettyFormatter, SequenceSerializer, Serializer,
    StructSerializer,
};
use std::alloc::AllocError;
use std::test::Fail;

// A config without ranges.
#[derive(Drop)]
enum Syntax {
    Js(bool),
    Ts(bool),
}

impl Config for Syntax {
    ghost use Rattle.oxc_estree_tests.specs.declared.trait_tests.Syntax.TheVariants.{Js, Ts};

    ghost ts = { elim [ Js r ↦ false | Ts r ↦ true ] };

    ghost with_ranges = { elim [ Js r ↦ r | Ts r ↦ r ] };

    ghost records = { false };

    fn new(include_ts_fields: bool, ranges: bool) -> Self {
        if include_ts_fields {
            Syntax::Ts(ranges)
        } else {
            Syntax::Js(ranges)
        }
    }

    fn include_ts_fields(&self) -> bool {
        matches!(self, Syntax::Ts(_))
    }

    fn fixes(&self) -> bool {
        false
    }

    fn ranges(&self) -> bool {
        match self {
            Syntax::Js(ranges) | Syntax::Ts(ranges) => *ranges,
        }
    }
}

// A pretty formatter that counts the lines it begins.
#[derive(Drop)]
struct Counting {
    inner: PrettyFormatter,
    lines: u64,
}

impl Formatter for Counting {
    ghost layout = { λ f. ⟦<PrettyFormatter as Formatter>⟧.layout f.inner };

    ghost IS_COMPACT = { false };

    ghost compact_is = { λ _. refl };

    const IS_COMPACT: bool = false;

    fn new() -> Self {
        Counting {
            inner: PrettyFormatter::new(),
            lines: 0,
        }
    }

    fn before_first_element(&mut self, buffer: &mut CodeBuffer) -> Result<(), AllocError> {
        self.lines = self.lines.saturating_add(1);
        self.inner.before_first_element(buffer)
    }

    fn before_later_element(&mut self, buffer: &mut CodeBuffer) -> Result<(), AllocError> {
        self.lines = self.lines.saturating_add(1);
        self.inner.before_later_element(buffer)
    }

    fn before_field_value(&mut self, buffer: &mut CodeBuffer) -> Result<(), AllocError> {
        self.inner.before_field_value(buffer)
    }

    fn after_last_element(&mut self, buffer: &mut CodeBuffer) -> Result<(), AllocError> {
        self.lines = self.lines.saturating_add(1);
        self.inner.after_last_element(buffer)
    }
}

// A compact serializer that takes neither flag and keeps no path.
#[derive(Drop)]
struct Bare {
    buffer: CodeBuffer,
}

impl Serializer for Bare {
    type Config = Syntax;

    type Formatter = CompactFormatter;

    ghost out = { λ s. record {
      text = s.buffer.bytes;
      layout = compact;
      path = [];
      fixes = [];
      records = false;
      ts = false;
      ranges = false;
    } };

    ghost with_buffer = { λ s b. record s { buffer = b } };

    ghost IS_COMPACT = { true };

    ghost compact_as_formatter = { refl };

    ghost compact_is = { λ _. refl };

    ghost buffer_is_text = { λ _ _. refl };

    const IS_COMPACT: bool = true;

    fn include_ts_fields(&self) -> bool {
        false
    }

    fn ranges(&self) -> bool {
        false
    }

    fn record_fix_path(&mut self) -> Result<(), AllocError> {
        Ok(())
    }

    fn buffer_mut(&mut self) -> &mut CodeBuffer {
        &mut self.buffer
    }

    fn begin_struct(&mut self) -> Result<(), AllocError> {
        self.buffer.print_str("{")
    }

    fn begin_field(&mut self, key: &'static str, first: bool) -> Result<(), AllocError> {
        if first {
            print_key(&mut self.buffer, key)
        } else {
            self.buffer.print_str(",")?;
            print_key(&mut self.buffer, key)
        }
    }

    fn end_field(&mut self) {}

    fn end_struct(&mut self, _empty: bool) -> Result<(), AllocError> {
        self.buffer.print_str("}")
    }

    fn begin_sequence(&mut self) -> Result<(), AllocError> {
        self.buffer.print_str("[")
    }

    fn begin_element(&mut self, index: usize) -> Result<(), AllocError> {
        if index == 0 {
            Ok(())
        } else {
            self.buffer.print_str(",")
        }
    }

    fn end_element(&mut self) {}

    fn end_sequence(&mut self, _empty: bool) -> Result<(), AllocError> {
        self.buffer.print_str("]")
    }
}

fn print_key(buffer: &mut CodeBuffer, key: &str) -> Result<(), AllocError>
    ensures ok { OnOk result (Appends buffer.old buffer.new (key_text compact (units_of key.now))) }
    ensures refused { OnErr result (IsPartlyPrinted buffer.old buffer.new (key_text compact (units_of key.now))) }
{
    print_quoted_by_chars(buffer, key)?;
    buffer.print_ascii_byte(b':')
}

// A struct in somebody else's hands. Its plain fields are counted.
#[derive(Drop)]
struct CountingStruct<'p, P: StructSerializer> {
    inner: &'p mut P,
    fields: u64,
}

impl<'p, P: StructSerializer> StructSerializer for CountingStruct<'p, P> {
    type Config = P::Config;

    type Formatter = P::Formatter;

    ghost state = { λ s. P.state s.inner.now };

    ghost place = { λ s. P.place s.inner.now };

    fn include_ts_fields(&self) -> bool {
        self.inner.include_ts_fields()
    }

    fn ranges(&self) -> bool {
        self.inner.ranges()
    }

    fn serialize_field<T: ESTree>(
        &mut self,
        key: &'static str,
        value: &T,
    ) -> Result<(), AllocError> {
        self.fields = self.fields.saturating_add(1);
        self.inner.serialize_field(key, value)
    }

    fn serialize_js_field<T: ESTree>(
        &mut self,
        key: &'static str,
        value: &T,
    ) -> Result<(), AllocError> {
        self.inner.serialize_js_field(key, value)
    }

    fn serialize_ts_field<T: ESTree>(
        &mut self,
        key: &'static str,
        value: &T,
    ) -> Result<(), AllocError> {
        self.inner.serialize_ts_field(key, value)
    }

    fn serialize_span<S: ESTreeSpan>(&mut self, span: S) -> Result<(), AllocError> {
        self.inner.serialize_span(span)
    }

    fn end(self) -> Result<(), AllocError> {
        Ok(())
    }
}

#[derive(Drop)]
struct CountingList<'p, P: SequenceSerializer> {
    inner: &'p mut P,
    elements: u64,
}

impl<'p, P: SequenceSerializer> SequenceSerializer for CountingList<'p, P> {
    ghost state = { λ s. P.state s.inner.now };

    ghost place = { λ s. P.place s.inner.now };

    fn serialize_element<T: ESTree>(&mut self, value: &T) -> Result<(), AllocError> {
        self.elements = self.elements.saturating_add(1);
        self.inner.serialize_element(value)
    }

    fn end(self) -> Result<(), AllocError> {
        Ok(())
    }
}

#[test]
fn own_config_and_formatter(rt: HostRuntime) -> Result<(), Fail> {
    let mut serializer = ESTreeSerializer::<Syntax, Counting>::new(rt.alloc(), true, false)?;
    assert!(rt; serializer.include_ts_fields() && !serializer.ranges());
    JsonSlice(&[Some(true), None]).serialize(&mut serializer)?;
    assert!(rt; serializer.into_string().as_str() == "[\n  true,\n  null\n]");
    Ok(())
}

fn bare_serializer(rt: &HostRuntime) -> Bare {
    Bare {
        buffer: CodeBuffer::new(rt.alloc()),
    }
}

// Writes a field of each kind, and returns how many were counted.
fn write_fields<P: StructSerializer>(inner: &mut P) -> Result<u64, AllocError> {
    let mut counting = CountingStruct { inner, fields: 0 };
    let none: [u32; 0] = [];
    counting.serialize_field("none", &JsonSlice(&none))?;
    counting.serialize_field("one", &JsonSlice(&[1u32, 2]))?;
    counting.serialize_ts_field("two", &2u32)?;
    counting.serialize_js_field("three", &3u32)?;
    let fields = counting.fields;
    counting.end()?;
    Ok(fields)
}

#[test]
fn own_struct_serializer(rt: HostRuntime) -> Result<(), Fail> {
    let mut serializer = bare_serializer(&rt);
    let mut state = ESTreeStructSerializer::new(&mut serializer)?;
    assert!(rt; write_fields(&mut state)? == 2);
    state.end()?;
    assert!(rt; serializer.buffer.as_str() == "{\"none\":[],\"one\":[1,2],\"three\":3}");
    Ok(())
}

// Writes two elements, and returns how many were counted.
fn write_elements<P: SequenceSerializer>(inner: &mut P) -> Result<u64, AllocError> {
    let mut counting = CountingList { inner, elements: 0 };
    counting.serialize_element(&())?;
    counting.serialize_element(&true)?;
    let elements = counting.elements;
    counting.end()?;
    Ok(elements)
}

#[test]
fn own_sequence_serializer(rt: HostRuntime) -> Result<(), Fail> {
    let mut serializer = bare_serializer(&rt);
    let mut list = ESTreeSequenceSerializer::new(&mut serializer)?;
    assert!(rt; write_elements(&mut list)? == 2);
    list.end()?;
    assert!(rt; serializer.buffer.as_str() == "[null,true]");
    Ok(())
}
