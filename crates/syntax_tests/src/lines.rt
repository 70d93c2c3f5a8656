//! The lines of a text.

use std::alloc::{AllocError, Global};
use std::test::Fail;
use syntax_lex::line_terminator::LineTerminatorSplitter;

// The lines of a text, each between brackets.
fn bracketed(alloc: Global, text: &str) -> Result<String, AllocError> {
    let mut shown = String::new(alloc);
    for line in LineTerminatorSplitter::new(text) {
        shown.push('[')?;
        shown.push_str(line)?;
        shown.push(']')?;
    }
    Ok(shown)
}

#[test]
fn lines(rt: HostRuntime) -> Result<(), Fail> {
    let alloc = rt.alloc();
    for (text, expected) in [
        ("", ""),
        ("a", "[a]"),
        ("\n", "[]"),
        ("a\n", "[a]"),
        ("\na", "[][a]"),
        ("line1\r\nline2", "[line1][line2]"),
        ("a\r\n\r\nb\r\n", "[a][][b]"),
        ("a\n\rb", "[a][][b]"),
        ("\ra\r", "[][a]"),
        ("a\u{2028}b\u{2029}c\u{2028}", "[a][b][c]"),
        ("\u{2029}\u{2028}", "[][]"),
        ("\u{e9}\u{2027}\n\u{1d5d}\r", "[\u{e9}\u{2027}][\u{1d5d}]"),
        ("\r\n\n\r", "[][][]"),
    ] {
        assert!(rt; bracketed(alloc, text)?.as_str() == expected);
    }
    Ok(())
}
