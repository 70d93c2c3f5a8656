//! Structs that are written field by field.

ghost use Rattle.std.specs.Prelude.{◌≡◌, ℕ, List, [], ◌∷◌, IsOkAnd, OnErr, OnOk};
ghost use Rattle.std.specs.Borrow.{GName};
ghost use Rattle.oxc_estree.specs.Open.{Field, OpenStruct, add_field, add_fields, closed, js_field, new_struct, span_fields, ts_field};
ghost use Rattle.oxc_estree.specs.Out.{Flags, flags};
ghost use Rattle.oxc_estree.specs.Refused.{IsCutShort};

use crate::{Config, ESTree, Formatter, JsonSlice, Serializer};
use std::alloc::AllocError;

/// A struct that stands open.
///
/// A call that is refused for want of memory leaves the text as it was, with a first part of what
/// it was to append.
pub trait StructSerializer {
    /// What its serializer was asked for.
    type Config: Config;

    /// What white space its serializer writes.
    type Formatter: Formatter;

    // What was written, and whether the struct has no field yet.
    ghost state: { Self → OpenStruct };

    // Which serializer it writes to.
    ghost place: { Self → GName };

    /// Whether the output has TS fields.
    fn include_ts_fields(&self) -> bool
        ensures { result ≡ (state self.now).out.ts };

    /// Whether a node has the field `range`.
    fn ranges(&self) -> bool
        ensures { result ≡ (state self.now).out.ranges };

    /// Writes a field.
    fn serialize_field<T: ESTree>(&mut self, key: &'static str, value: &T) -> Result<(), AllocError>
        ensures ok { OnOk result (state self.new
            ≡ add_field (state self.old) key.now
            (T.meaning value.now (flags (state self.old).out))) }
        ensures refused { OnErr result (IsCutShort (state self.old).out (state self.new).out
            (add_field (state self.old) key.now
            (T.meaning value.now (flags (state self.old).out))).out) }
        ensures same_reference { place self.new ≡ place self.old };

    /// Writes a field of JavaScript syntax that trees with TS fields don't have: only where the output
    /// has no TS fields.
    fn serialize_js_field<T: ESTree>(
        &mut self,
        key: &'static str,
        value: &T,
    ) -> Result<(), AllocError>
        ensures ok { OnOk result (state self.new ≡ add_fields (state self.old)
            (js_field (flags (state self.old).out) key.now
            (T.meaning value.now (flags (state self.old).out)))) }
        ensures refused { OnErr result (IsCutShort (state self.old).out (state self.new).out
            (add_fields (state self.old)
            (js_field (flags (state self.old).out) key.now
            (T.meaning value.now (flags (state self.old).out)))).out) }
        ensures same_reference { place self.new ≡ place self.old };

    /// Writes a field of TypeScript syntax: only where the output has TS fields.
    fn serialize_ts_field<T: ESTree>(
        &mut self,
        key: &'static str,
        value: &T,
    ) -> Result<(), AllocError>
        ensures ok { OnOk result (state self.new ≡ add_fields (state self.old)
            (ts_field (flags (state self.old).out) key.now
            (T.meaning value.now (flags (state self.old).out)))) }
        ensures refused { OnErr result (IsCutShort (state self.old).out (state self.new).out
            (add_fields (state self.old)
            (ts_field (flags (state self.old).out) key.now
            (T.meaning value.now (flags (state self.old).out)))).out) }
        ensures same_reference { place self.new ≡ place self.old };

    /// Writes the fields `start` and `end` of a span, and the field `range` where a node has it.
    fn serialize_span<S: ESTreeSpan>(&mut self, span: S) -> Result<(), AllocError>
        ensures ok { OnOk result (state self.new ≡ add_fields (state self.old)
            (span_fields (flags (state self.old).out) (S.start span) (S.end span))) }
        ensures refused { OnErr result (IsCutShort (state self.old).out (state self.new).out
            (add_fields (state self.old)
            (span_fields (flags (state self.old).out) (S.start span) (S.end span))).out) }
        ensures same_reference { place self.new ≡ place self.old };

    /// Ends the struct.
    fn end(self) -> Result<(), AllocError>;
}

/// What has a place in the source text.
pub trait ESTreeSpan: Copy {
    // The offset at which it starts, and the one at which it ends.
    ghost start: { Self → ℕ };

    ghost end: { Self → ℕ };

    /// Where it starts and where it ends, as offsets into the source text.
    fn range(self) -> [u32; 2]
        ensures { result ≡ start self ∷ end self ∷ [] };
}

/// What is written as fields of a struct that stands open already.
///
/// Which fields these are may go by the two flags alone.
pub trait Fields {
    // The fields, in order.
    ghost fields: { Self → Flags → List Field };

    /// Writes the fields.
    fn serialize_fields<P: StructSerializer>(&self, serializer: &mut P) -> Result<(), AllocError>
        ensures ok { OnOk result (P.state serializer.new ≡ add_fields (P.state serializer.old)
            (fields self.now (flags (P.state serializer.old).out))) }
        ensures refused { OnErr result (IsCutShort (P.state serializer.old).out (P.state serializer.new).out
            (add_fields (P.state serializer.old)
            (fields self.now (flags (P.state serializer.old).out))).out) }
        ensures same_reference { P.place serializer.new ≡ P.place serializer.old };
}

/// A struct that stands open, into which the fields of another value are written.
///
/// A node can have the fields of its span among its own so: the struct of the node isn't ended, and
/// takes more fields afterwards.
#[derive(Drop)]
pub struct FlatStructSerializer<'p, P: StructSerializer>(pub &'p mut P);

impl<'p, P: StructSerializer> FlatStructSerializer<'p, P> {
    /// Writes the fields of a value into the struct.
    pub fn write<T: Fields>(self, value: &T) -> Result<(), AllocError>
        ensures ok { OnOk result (P.state self.exit.0.now ≡ add_fields (P.state self.entry.0.now)
            (T.fields value.now (flags (P.state self.entry.0.now).out))) }
        ensures refused { OnErr result (IsCutShort (P.state self.entry.0.now).out (P.state self.exit.0.now).out
            (add_fields (P.state self.entry.0.now)
            (T.fields value.now (flags (P.state self.entry.0.now).out))).out) }
        ensures same_reference { P.place self.exit.0.now ≡ P.place self.entry.0.now }
    {
        value.serialize_fields(self.0)
    }
}

/// A struct that is written to a serializer.
///
/// Its opening brace is written with the first field, or at the end of an empty struct.
#[derive(Drop)]
pub struct ESTreeStructSerializer<'s, S: Serializer> {
    serializer: &'s mut S,
    first: bool,
}

impl<'s, S: Serializer> ESTreeStructSerializer<'s, S> {
    /// Opens a struct. It takes no memory, so it succeeds.
    pub fn new(serializer: &'s mut S) -> Result<Self, AllocError>
        ensures same_reference { IsOkAnd result (λ r.
            ⟦<ESTreeStructSerializer<'s, S> as StructSerializer>⟧.place r
            ≡ serializer.entry.ghost_name) }
        ensures ok { IsOkAnd result (λ r.
            ⟦<ESTreeStructSerializer<'s, S> as StructSerializer>⟧.state r
            ≡ new_struct (S.out serializer.old)) }
    {
        Ok(ESTreeStructSerializer {
            serializer,
            first: true,
        })
    }
}

impl<'s, S: Serializer> StructSerializer for ESTreeStructSerializer<'s, S> {
    ghost use Rattle.std.specs.Prelude.{not};

    type Config = S::Config;

    type Formatter = S::Formatter;

    ghost state = { λ s.
        record { out = S.out s.serializer.now; begun = not s.first; first = s.first } };

    ghost place = { λ s. s.serializer.ghost_name };

    fn include_ts_fields(&self) -> bool {
        self.serializer.include_ts_fields()
    }

    fn ranges(&self) -> bool {
        self.serializer.ranges()
    }

    fn serialize_field<T: ESTree>(
        &mut self,
        key: &'static str,
        value: &T,
    ) -> Result<(), AllocError> {
        let first = self.first;
        if first {
            self.serializer.begin_struct()?;
        }
        self.serializer.begin_field(key, first)?;
        value.serialize(self.serializer)?;
        self.serializer.end_field();
        self.first = false;
        Ok(())
    }

    fn serialize_js_field<T: ESTree>(
        &mut self,
        key: &'static str,
        value: &T,
    ) -> Result<(), AllocError> {
        if !self.include_ts_fields() {
            self.serialize_field(key, value)
        } else {
            Ok(())
        }
    }

    fn serialize_ts_field<T: ESTree>(
        &mut self,
        key: &'static str,
        value: &T,
    ) -> Result<(), AllocError> {
        if self.include_ts_fields() {
            self.serialize_field(key, value)
        } else {
            Ok(())
        }
    }

    fn serialize_span<T: ESTreeSpan>(&mut self, span: T) -> Result<(), AllocError> {
        let range = span.range();
        self.serialize_field("start", &range[0])?;
        self.serialize_field("end", &range[1])?;
        if self.ranges() {
            self.serialize_field("range", &JsonSlice(&range))
        } else {
            Ok(())
        }
    }

    fn end(self) -> Result<(), AllocError>
        ensures ok { OnOk result (S.out self.exit.0.now
            ≡ closed (⟦<ESTreeStructSerializer<'s, S> as StructSerializer>⟧.state self.entry)) }
        ensures refused { let fields = ⟦<ESTreeStructSerializer<'s, S> as StructSerializer>⟧.state self.entry in
            OnErr result (IsCutShort fields.out (S.out self.exit.0.now) (closed fields)) }
    {
        let empty = self.first;
        if empty {
            self.serializer.begin_struct()?;
        }
        self.serializer.end_struct(empty)
    }
}
