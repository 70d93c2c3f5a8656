//! Strings printed a character at a time: what the scan by eight bytes is compared with.

ghost use Rattle.std.specs.Prelude.{◌≡◌, ◌<◌, OnErr, OnOk};
ghost use Rattle.json_text.specs.Strings.{char_text, hex_digit, quoted_units, unit_escape};
ghost use Rattle.json_text.specs.Units.{units_of};
ghost use Rattle.oxc_data_structures.specs.CodeBuffer.{Appends, IsUnchanged};
ghost use Rattle.oxc_estree.specs.Refused.{IsPartlyPrinted};

use oxc_data_structures::code_buffer::CodeBuffer;
use std::alloc::AllocError;

/// Appends a text between quotation marks (RFC 8259, section 7).
pub(crate) fn print_quoted_by_chars(buffer: &mut CodeBuffer, text: &str) -> Result<(), AllocError>
    ensures ok { OnOk result (Appends buffer.old buffer.new (quoted_units (units_of text.now))) }
    ensures refused { OnErr result (IsPartlyPrinted buffer.old buffer.new (quoted_units (units_of text.now))) }
{
    buffer.print_ascii_byte(b'"')?;
    for c in text.chars() {
        print_text_char(buffer, c)?;
    }
    buffer.print_ascii_byte(b'"')
}

fn print_text_char(buffer: &mut CodeBuffer, c: char) -> Result<(), AllocError>
    ensures ok { OnOk result (Appends buffer.old buffer.new (char_text c)) }
    ensures refused { OnErr result (IsUnchanged buffer.old buffer.new) }
{
    match c {
        '"' => buffer.print_str("\\\""),
        '\\' => buffer.print_str("\\\\"),
        '\u{8}' => buffer.print_str("\\b"),
        '\t' => buffer.print_str("\\t"),
        '\n' => buffer.print_str("\\n"),
        '\u{c}' => buffer.print_str("\\f"),
        '\r' => buffer.print_str("\\r"),
        '\0'..='\u{1f}' => print_escape(buffer, c as u32),
        _ => buffer.print_char(c),
    }
}

fn print_escape(buffer: &mut CodeBuffer, unit: u32) -> Result<(), AllocError>
    requires { unit < 65536 }
    ensures ok { OnOk result (Appends buffer.old buffer.new (unit_escape unit)) }
    ensures refused { OnErr result (IsUnchanged buffer.old buffer.new) }
{
    let escape = [
        b'\\',
        b'u',
        hex_byte(unit / 0x1000),
        hex_byte(unit / 0x100 % 0x10),
        hex_byte(unit / 0x10 % 0x10),
        hex_byte(unit % 0x10),
    ];
    buffer.print_ascii_bytes(&escape)
}

fn hex_byte(digit: u32) -> u8
    requires { digit < 16 }
    ensures value { result ≡ hex_digit digit }
    ensures ascii { result < 128 }
{
    if digit < 10 {
        48 + digit as u8
    } else {
        87 + digit as u8
    }
}
