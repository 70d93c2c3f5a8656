//! The serializer that writes to a buffer of its own.

ghost use Rattle.std.specs.Prelude.{◌≡◌, ◌≤◌, IfOk, IsTrue, OnOk, refl, string_bytes};
ghost use Rattle.json_text.specs.Layout.{start_layout};
ghost use Rattle.oxc_data_structures.specs.CodeBuffer.{Appends};
ghost use Rattle.oxc_estree.specs.Envelope.{envelope, fixes_member};
ghost use Rattle.oxc_estree.specs.Out.{IsNew, flags, new_out};
ghost use Rattle.oxc_estree.specs.TracePathPart.{path_of};

use crate::pieces::{print_before, print_closing, print_fixes, print_key, print_path};
use crate::trace_path::{step_in, step_out};
use crate::{
    CompactFormatter, Config, ConfigFixes, ConfigNoFixes, ESTree, Formatter, PrettyFormatter,
    Serializer, TracePathPart,
};
use oxc_data_structures::code_buffer::CodeBuffer;
use std::alloc::{AllocError, Global};

/// A serializer that writes compact JSON.
pub type CompactSerializer = ESTreeSerializer<ConfigNoFixes, CompactFormatter>;

/// A serializer that writes pretty JSON.
pub type PrettySerializer = ESTreeSerializer<ConfigNoFixes, PrettyFormatter>;

/// A serializer that writes compact JSON, and records fix paths.
pub type CompactFixesSerializer = ESTreeSerializer<ConfigFixes, CompactFormatter>;

/// A serializer that writes pretty JSON, and records fix paths.
pub type PrettyFixesSerializer = ESTreeSerializer<ConfigFixes, PrettyFormatter>;

/// A serializer that writes to a buffer of its own.
#[derive(Drop)]
pub struct ESTreeSerializer<C: Config + Drop, F: Formatter + Drop> {
    buffer: CodeBuffer,
    formatter: F,
    trace_path: Vec<TracePathPart>,
    fixes: CodeBuffer,
    config: C,
}

impl<C: Config + Drop, F: Formatter + Drop> ESTreeSerializer<C, F> {
    /// A serializer to which nothing was written yet.
    pub fn new(alloc: Global, include_ts_fields: bool, ranges: bool) -> Result<Self, AllocError>
        ensures { IfOk result (λ s. ⟦<ESTreeSerializer<C, F> as Serializer>⟧.out s
            ≡ new_out C.records F.IS_COMPACT include_ts_fields ranges) }
    {
        Ok(ESTreeSerializer {
            buffer: CodeBuffer::new(alloc),
            formatter: F::new(),
            trace_path: Vec::new(alloc),
            fixes: CodeBuffer::new(alloc),
            config: C::new(include_ts_fields, ranges),
        })
    }

    /// A serializer to which nothing was written yet, with room for `capacity` bytes of text.
    pub fn with_capacity(
        alloc: Global,
        capacity: usize,
        include_ts_fields: bool,
        ranges: bool,
    ) -> Result<Self, AllocError>
        ensures new { IfOk result (λ s. ⟦<ESTreeSerializer<C, F> as Serializer>⟧.out s
            ≡ new_out C.records F.IS_COMPACT include_ts_fields ranges) }
        ensures room { IfOk result (λ s. capacity ≤ s.buffer.capacity) }
    {
        Ok(ESTreeSerializer {
            buffer: CodeBuffer::with_capacity(alloc, capacity)?,
            formatter: F::new(),
            trace_path: Vec::new(alloc),
            fixes: CodeBuffer::new(alloc),
            config: C::new(include_ts_fields, ranges),
        })
    }

    /// The text of a node, with the paths to what has to be mended in it, since JSON can't hold it:
    /// `{"node":`, a line feed, the node, a line feed, `,"fixes":[`, the paths with commas between
    /// them, `]}`.
    ///
    /// Nothing was written to the serializer yet, and its config records fix paths.
    pub fn serialize_with_fixes<T: ESTree>(mut self, node: &T) -> Result<String, AllocError>
        requires records { IsTrue C.records }
        requires nothing_written { IsNew F.IS_COMPACT (⟦<ESTreeSerializer<C, F> as Serializer>⟧.out self) }
        ensures { IfOk result (λ s. string_bytes s
            ≡ envelope (start_layout F.IS_COMPACT)
            (T.meaning node.now (flags (⟦<ESTreeSerializer<C, F> as Serializer>⟧.out self)))) }
    {
        self.buffer.print_str("{\"node\":\n")?;
        node.serialize(&mut self)?;
        self.print_fixes()?;
        Ok(self.buffer.into_string())
    }

    fn print_fixes(&mut self) -> Result<(), AllocError>
        ensures { OnOk result (Appends self.old.buffer self.new.buffer (fixes_member self.old.fixes.bytes)) }
    {
        print_fixes(&mut self.buffer, &self.fixes)
    }

    /// The text so far.
    pub fn into_string(self) -> String
        ensures { string_bytes result ≡ (⟦<ESTreeSerializer<C, F> as Serializer>⟧.out self).text }
    {
        self.buffer.into_string()
    }
}

impl<C: Config + Drop, F: Formatter + Drop> Serializer for ESTreeSerializer<C, F> {
    type Config = C;

    type Formatter = F;

    ghost out = { λ s. record {
      text = s.buffer.bytes;
      layout = F.layout s.formatter;
      path = path_of s.trace_path.items;
      fixes = s.fixes.bytes;
      records = C.records;
      ts = C.ts s.config;
      ranges = C.with_ranges s.config;
    } };

    ghost with_buffer = { λ s b. record s { buffer = b } };

    ghost IS_COMPACT = { F.IS_COMPACT };

    ghost compact_as_formatter = { refl };

    ghost compact_is = { λ s. F.compact_is s.formatter };

    ghost buffer_is_text = { λ s b. refl };

    const IS_COMPACT: bool = F::IS_COMPACT;

    fn include_ts_fields(&self) -> bool {
        self.config.include_ts_fields()
    }

    fn ranges(&self) -> bool {
        self.config.ranges()
    }

    fn record_fix_path(&mut self) -> Result<(), AllocError> {
        if !self.config.fixes() {
            return Ok(());
        }
        print_path(&mut self.fixes, &self.trace_path)
    }

    fn buffer_mut(&mut self) -> &mut CodeBuffer {
        &mut self.buffer
    }

    fn begin_struct(&mut self) -> Result<(), AllocError> {
        self.buffer.print_ascii_byte(b'{')
    }

    fn begin_field(&mut self, key: &'static str, first: bool) -> Result<(), AllocError> {
        print_before(&mut self.formatter, &mut self.buffer, first)?;
        print_key(&mut self.formatter, &mut self.buffer, key)?;
        step_in(
            &mut self.trace_path,
            self.config.fixes(),
            TracePathPart::Key(key),
        )
    }

    fn end_field(&mut self) {
        step_out(&mut self.trace_path, self.config.fixes());
    }

    fn end_struct(&mut self, empty: bool) -> Result<(), AllocError> {
        print_closing(&mut self.formatter, &mut self.buffer, empty)?;
        self.buffer.print_ascii_byte(b'}')
    }

    fn begin_sequence(&mut self) -> Result<(), AllocError> {
        self.buffer.print_ascii_byte(b'[')
    }

    fn begin_element(&mut self, index: usize) -> Result<(), AllocError> {
        print_before(&mut self.formatter, &mut self.buffer, index == 0)?;
        step_in(
            &mut self.trace_path,
            self.config.fixes(),
            TracePathPart::Index(index),
        )
    }

    fn end_element(&mut self) {
        step_out(&mut self.trace_path, self.config.fixes());
    }

    fn end_sequence(&mut self, empty: bool) -> Result<(), AllocError> {
        print_closing(&mut self.formatter, &mut self.buffer, empty)?;
        self.buffer.print_ascii_byte(b']')
    }
}
