//! Strings, with what JSON asks to be escaped.

ghost use Rattle.std.specs.Prelude.{◌≡◌, ◌-◌, ◌<◌, IfOk, OnErr, OnOk, drop, flat_map, length, take};
ghost use Rattle.std.specs.Str.{IsCharBoundary};
ghost use Rattle.json_text.specs.Strings.{char_text, hex_digit, quoted_units, short_escape, unit_escape};
ghost use Rattle.json_text.specs.Units.{units_of};
ghost use Rattle.oxc_data_structures.specs.CodeBuffer.{Appends};
ghost use Rattle.oxc_estree.specs.Escapes.{byte_text};
ghost use Rattle.oxc_estree.specs.Refused.{IsPartlyPrinted};
ghost use Rattle.oxc_estree.specs.Values.{hex_pair};

use crate::scan::plain_end;
use oxc_data_structures::code_buffer::CodeBuffer;
use std::alloc::AllocError;

/// Appends a text between quotation marks (RFC 8259, section 7).
pub(crate) fn print_quoted(buffer: &mut CodeBuffer, text: &str) -> Result<(), AllocError>
    ensures ok { OnOk result (Appends buffer.old buffer.new (quoted_units (units_of text.now))) }
    ensures refused { OnErr result (IsPartlyPrinted buffer.old buffer.new (quoted_units (units_of text.now))) }
{
    buffer.print_ascii_byte(b'"')?;
    print_escaped(buffer, text)?;
    buffer.print_ascii_byte(b'"')
}

// Runs of bytes that need no escape are printed whole.
fn print_escaped(buffer: &mut CodeBuffer, text: &str) -> Result<(), AllocError>
    ensures ok { OnOk result (Appends buffer.old buffer.new (flat_map byte_text text.now)) }
    ensures refused { OnErr result (IsPartlyPrinted buffer.old buffer.new (flat_map byte_text text.now)) }
{
    let mut start = 0;
    while start < text.len() {
        start = print_run(buffer, text, start)?;
    }
    Ok(())
}

// Appends the bytes from `start` up to one that needs an escape, and that one's escape. Answers the
// place of the next byte.
fn print_run(buffer: &mut CodeBuffer, text: &str, start: usize) -> Result<usize, AllocError>
    requires within { start < length text.now }
    requires boundary { IsCharBoundary text.now start }
    ensures next { IfOk result (λ next. (start < next) × IsCharBoundary text.now next) }
    ensures ok { IfOk result (λ next. Appends buffer.old buffer.new
        (flat_map byte_text (take (next - start) (drop start text.now)))) }
    ensures refused { OnErr result (IsPartlyPrinted buffer.old buffer.new
        (flat_map byte_text (drop start text.now))) }
{
    let end = plain_end(text.as_bytes(), start);
    buffer.print_str(&text[start..end])?;
    if end == text.len() {
        return Ok(end);
    }
    print_text_char(buffer, text.as_bytes()[end] as char)?;
    Ok(end + 1)
}

pub(crate) fn print_text_char(buffer: &mut CodeBuffer, c: char) -> Result<(), AllocError>
    ensures ok { OnOk result (Appends buffer.old buffer.new (char_text c)) }
    ensures refused { OnErr result (IsPartlyPrinted buffer.old buffer.new (char_text c)) }
{
    match c {
        '"' => print_short(buffer, b'"'),
        '\\' => print_short(buffer, b'\\'),
        '\u{8}' => print_short(buffer, b'b'),
        '\t' => print_short(buffer, b't'),
        '\n' => print_short(buffer, b'n'),
        '\u{c}' => print_short(buffer, b'f'),
        '\r' => print_short(buffer, b'r'),
        '\0'..='\u{1f}' => print_unit_escape(buffer, c as u32),
        _ => buffer.print_char(c),
    }
}

fn print_short(buffer: &mut CodeBuffer, byte: u8) -> Result<(), AllocError>
    requires { byte < 128 }
    ensures ok { OnOk result (Appends buffer.old buffer.new (short_escape byte)) }
    ensures refused { OnErr result (IsPartlyPrinted buffer.old buffer.new (short_escape byte)) }
{
    buffer.print_ascii_byte(b'\\')?;
    buffer.print_ascii_byte(byte)
}

/// Appends a code unit as `\u` and four hexadecimal digits in lower case.
pub(crate) fn print_unit_escape(buffer: &mut CodeBuffer, unit: u32) -> Result<(), AllocError>
    requires { unit < 65536 }
    ensures ok { OnOk result (Appends buffer.old buffer.new (unit_escape unit)) }
    ensures refused { OnErr result (IsPartlyPrinted buffer.old buffer.new (unit_escape unit)) }
{
    buffer.print_str("\\u")?;
    print_hex_pair(buffer, unit / 256)?;
    print_hex_pair(buffer, unit % 256)
}

fn print_hex_pair(buffer: &mut CodeBuffer, byte: u32) -> Result<(), AllocError>
    requires { byte < 256 }
    ensures ok { OnOk result (Appends buffer.old buffer.new (hex_pair byte)) }
    ensures refused { OnErr result (IsPartlyPrinted buffer.old buffer.new (hex_pair byte)) }
{
    buffer.print_ascii_byte(hex_byte(byte / 16))?;
    buffer.print_ascii_byte(hex_byte(byte % 16))
}

fn hex_byte(digit: u32) -> u8
    requires { digit < 16 }
    ensures value { result ≡ hex_digit digit }
    ensures ascii { result < 128 }
{
    if digit < 10 {
        48 + digit as u8
    } else {
        87 + digit as u8
    }
}
