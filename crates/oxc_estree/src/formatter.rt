//! White space between the tokens of the output.

ghost use Rattle.std.specs.Prelude.{◌≡◌, Bool, OnErr, OnOk};
ghost use Rattle.json_text.specs.Layout.{Layout, compact, deeper, is_compact, new_line, pretty, shallower, space, start_layout};
ghost use Rattle.oxc_data_structures.specs.CodeBuffer.{Appends, IsUnchanged};

use oxc_data_structures::code_buffer::CodeBuffer;
use std::alloc::AllocError;

/// What white space the output has.
///
/// A formatter is compact and appends nothing, or it knows how many structs and lists stand open
/// and appends a line feed and two spaces for each of them. A call that is refused for want of
/// memory has appended nothing, and has opened and closed no level.
pub trait Formatter {
    // Where white space stands, with the levels that stand open.
    ghost layout: { Self → Layout };

    ghost IS_COMPACT: { Bool };

    /// Whether the output has no white space.
    const IS_COMPACT: bool;

    /// A formatter with no level open.
    fn new() -> Self
        ensures { layout result ≡ start_layout IS_COMPACT };

    /// Opens a level, and appends what stands before its first field or element.
    fn before_first_element(&mut self, buffer: &mut CodeBuffer) -> Result<(), AllocError>
        ensures level { OnOk result (layout self.new ≡ deeper (layout self.old)) }
        ensures level_refused { OnErr result (layout self.new ≡ layout self.old) }
        ensures ok { OnOk result (Appends buffer.old buffer.new (new_line (deeper (layout self.old)))) }
        ensures refused { OnErr result (IsUnchanged buffer.old buffer.new) };

    /// Appends what stands before a later field or element.
    fn before_later_element(&mut self, buffer: &mut CodeBuffer) -> Result<(), AllocError>
        ensures level { OnOk result (layout self.new ≡ layout self.old) }
        ensures level_refused { OnErr result (layout self.new ≡ layout self.old) }
        ensures ok { OnOk result (Appends buffer.old buffer.new (new_line (layout self.old))) }
        ensures refused { OnErr result (IsUnchanged buffer.old buffer.new) };

    /// Appends what stands between a field's colon and its value.
    fn before_field_value(&mut self, buffer: &mut CodeBuffer) -> Result<(), AllocError>
        ensures level { OnOk result (layout self.new ≡ layout self.old) }
        ensures level_refused { OnErr result (layout self.new ≡ layout self.old) }
        ensures ok { OnOk result (Appends buffer.old buffer.new (space (layout self.old))) }
        ensures refused { OnErr result (IsUnchanged buffer.old buffer.new) };

    /// Closes a level, and appends what stands before the closing bracket. Where no level is open,
    /// none stays open.
    fn after_last_element(&mut self, buffer: &mut CodeBuffer) -> Result<(), AllocError>
        ensures level { OnOk result (layout self.new ≡ shallower (layout self.old)) }
        ensures level_refused { OnErr result (layout self.new ≡ layout self.old) }
        ensures ok { OnOk result (Appends buffer.old buffer.new (new_line (shallower (layout self.old)))) }
        ensures refused { OnErr result (IsUnchanged buffer.old buffer.new) };

    // A formatter is compact at every time, or at none.
    ghost compact_is: { (f : Self) → is_compact (layout f) ≡ IS_COMPACT };
}

/// A formatter that appends nothing.
#[derive(Drop)]
pub struct CompactFormatter;

impl Formatter for CompactFormatter {
    ghost use Rattle.std.specs.Prelude.{true, refl};

    ghost layout = { λ _. compact };

    ghost IS_COMPACT = { true };

    ghost compact_is = { λ _. refl };

    const IS_COMPACT: bool = true;

    fn new() -> Self {
        CompactFormatter
    }

    fn before_first_element(&mut self, _buffer: &mut CodeBuffer) -> Result<(), AllocError> {
        Ok(())
    }

    fn before_later_element(&mut self, _buffer: &mut CodeBuffer) -> Result<(), AllocError> {
        Ok(())
    }

    fn before_field_value(&mut self, _buffer: &mut CodeBuffer) -> Result<(), AllocError> {
        Ok(())
    }

    fn after_last_element(&mut self, _buffer: &mut CodeBuffer) -> Result<(), AllocError> {
        Ok(())
    }
}

/// A formatter that puts each field and each element on a line of its own, two spaces further in for
/// each struct and list that stands open, and a space behind each colon.
///
/// An empty struct or list stays on its line, as `{}` or `[]`. Room for a whole line's start is made before
/// its first byte, so a call that is refused leaves the buffer and the level as they were.
#[derive(Drop)]
pub struct PrettyFormatter {
    indent: usize,
}

impl Formatter for PrettyFormatter {
    ghost use Rattle.std.specs.Prelude.{false, refl};

    ghost layout = { λ f. pretty f.indent };

    ghost IS_COMPACT = { false };

    ghost compact_is = { λ _. refl };

    const IS_COMPACT: bool = false;

    fn new() -> Self {
        PrettyFormatter { indent: 0 }
    }

    // No text has room for `usize::MAX` levels.
    fn before_first_element(&mut self, buffer: &mut CodeBuffer) -> Result<(), AllocError> {
        let levels = self.indent.checked_add(1).ok_or(AllocError)?;
        print_new_line(buffer, levels)?;
        self.indent = levels;
        Ok(())
    }

    fn before_later_element(&mut self, buffer: &mut CodeBuffer) -> Result<(), AllocError> {
        print_new_line(buffer, self.indent)
    }

    fn before_field_value(&mut self, buffer: &mut CodeBuffer) -> Result<(), AllocError> {
        buffer.print_ascii_byte(b' ')
    }

    fn after_last_element(&mut self, buffer: &mut CodeBuffer) -> Result<(), AllocError> {
        let levels = self.indent.saturating_sub(1);
        print_new_line(buffer, levels)?;
        self.indent = levels;
        Ok(())
    }
}

// Two spaces a level, whatever the buffer's own indent is. It makes room first, so no print after that is
// refused.
fn print_new_line(buffer: &mut CodeBuffer, levels: usize) -> Result<(), AllocError>
    ensures ok { OnOk result (Appends buffer.old buffer.new (new_line (pretty levels))) }
    ensures refused { OnErr result (IsUnchanged buffer.old buffer.new) }
{
    let spaces = levels.checked_mul(2).ok_or(AllocError)?;
    buffer.reserve(spaces.checked_add(1).ok_or(AllocError)?)?;
    buffer.print_ascii_byte(b'\n')?;
    for _level in 0..levels {
        buffer.print_str("  ")?;
    }
    Ok(())
}
