//! What strings look like, and the scan by eight bytes beside a plain loop.

use crate::plain_strings::print_quoted_by_chars;
use crate::value_tests::is_written;
use oxc_data_structures::code_buffer::CodeBuffer;
use oxc_estree::{JsonSafeString, JsonSlice, JsonStr, LoneSurrogatesString, get_escapes_mask};
use std::alloc::{AllocError, Global};
use std::test::Fail;

#[test]
fn texts_and_lists_of_them(rt: HostRuntime) -> Result<(), Fail> {
    let alloc = rt.alloc();
    let rows = [
        ("[]", JsonSlice(&[])),
        ("[\"one\"]", JsonSlice(&[JsonStr("one")])),
        (
            "[\"\",\"\\\"\\\\/\"]",
            JsonSlice(&[JsonStr(""), JsonStr("\"\\/")]),
        ),
        (
            "[\"\\u0000\\u0007\\b\\t\\n\\u000b\\f\\r\\u001f \"]",
            JsonSlice(&[JsonStr("\0\x07\x08\t\n\x0b\x0c\r\x1f ")]),
        ),
        (
            "[\"\u{7f}\u{e9}\u{1f600}\"]",
            JsonSlice(&[JsonStr("\u{7f}\u{e9}\u{1f600}")]),
        ),
    ];
    for (want, value) in rows {
        assert!(rt; is_written(alloc, &value, want)?);
    }
    assert!(rt; is_written(alloc, &JsonSafeString("\u{1f600}"), "\"\u{1f600}\"")?);
    let mut text = String::new(alloc);
    text.push_str("a\"b")?;
    assert!(rt; is_written(alloc, &text, "\"a\\\"b\"")?);
    Ok(())
}

#[test]
fn the_first_sixteen_characters(rt: HostRuntime) -> Result<(), Fail> {
    let text = JsonStr("\0\x01\x02\x03\x04\x05\x06\x07\x08\t\n\x0b\x0c\r\x0e\x0f");
    let want =
        "\"\\u0000\\u0001\\u0002\\u0003\\u0004\\u0005\\u0006\\u0007\\b\\t\\n\\u000b\\f\\r\\u000e\\u000f\"";
    assert!(rt; is_written(rt.alloc(), &text, want)?);
    Ok(())
}

#[test]
fn strings_of_code_points(rt: HostRuntime) -> Result<(), Fail> {
    let alloc = rt.alloc();
    let points = [0xd800, 0x08, 0x0a, 0x22, 0x5c, 0x1f];
    let value = LoneSurrogatesString(points.iter().copied());
    assert!(rt; is_written(alloc, &value, "\"\\ud800\\b\\n\\\"\\\\\\u001f\"")?);
    // A pair is one character; surrogates that are no pair, and a number that is no code point.
    let points = [0xd83d, 0xde00, 0xde00, 0xd83d, 0x61, 0x11_0000];
    let value = LoneSurrogatesString(points.iter().cloned());
    assert!(rt; is_written(alloc, &value, "\"\u{1f600}\\ude00\\ud83da\u{fffd}\"")?);
    let points = [0x1_f600, 0xe9, 0xd801, 0xd802];
    let value = LoneSurrogatesString(points.into_iter());
    assert!(rt; is_written(alloc, &value, "\"\u{1f600}\u{e9}\\ud801\\ud802\"")?);
    Ok(())
}

#[test]
fn marks_of_eight_bytes(rt: HostRuntime) -> Result<(), Fail> {
    let rows = [
        (*b"ab\"cdefg", 0x80_0000),
        // Only the lowest mark is true: the space needs no escape.
        (*b"\x1f aaaaaa", 0x8080),
        (*b"abcdefgh", 0),
        (*b"abcdefg\\", 0x8000_0000_0000_0000),
        ([0xff; 8], 0),
    ];
    for (bytes, want) in rows {
        assert_eq!(rt; get_escapes_mask(bytes), want);
    }
    Ok(())
}

// Each length up to three words, with an escape at each place.
#[test]
fn the_scan_prints_as_the_loop(rt: HostRuntime) -> Result<(), Fail> {
    let alloc = rt.alloc();
    for len in 0..25 {
        for at in 0..=len {
            for escape in ['"', '\\', '\n', '\x01', '\u{e9}'] {
                let text = with_escape(alloc, len, at, escape)?;
                assert!(rt; is_printed_by_chars(alloc, &text)?, "{text}");
            }
        }
    }
    Ok(())
}

// Whether a text is written as the loop over its characters prints it.
fn is_printed_by_chars(alloc: Global, text: &String) -> Result<bool, AllocError> {
    let mut plain = CodeBuffer::new(alloc);
    print_quoted_by_chars(&mut plain, text)?;
    is_written(alloc, text, plain.as_str())
}

fn with_escape(alloc: Global, len: u32, at: u32, escape: char) -> Result<String, AllocError> {
    let mut text = String::new(alloc);
    for i in 0..len {
        text.push(if i == at { escape } else { 'a' })?;
    }
    Ok(text)
}
