//! White space, line terminators and the characters of identifier names.

use syntax_lex::identifier::{
    ASCII_ID_FLAGS, Align64, EOF, FF, NBSP, SP, TAB, VT, ZWJ, ZWNBSP, ZWNJ, is_identifier_part,
    is_identifier_part_ascii, is_identifier_part_unicode, is_identifier_start,
    is_identifier_start_ascii, is_identifier_start_unicode, is_irregular_whitespace,
    is_white_space, is_white_space_single_line,
};
use syntax_lex::line_terminator::{
    CR, LF, LS, LS_LAST_2_BYTES, LS_OR_PS_FIRST_BYTE, PS, PS_LAST_2_BYTES,
    is_irregular_line_terminator, is_line_terminator, is_regular_line_terminator,
};

// Whether a character is white space, on a single line, and white space of an irregular kind.
fn spaces(c: char) -> (bool, bool, bool) {
    (
        is_white_space(c),
        is_white_space_single_line(c),
        is_irregular_whitespace(c),
    )
}

#[test]
fn white_space(rt: HostRuntime) {
    for c in [TAB, SP] {
        assert!(rt; spaces(c) == (true, true, false), "{c}");
    }
    for c in [
        VT, FF, NBSP, ZWNBSP, '\u{1680}', '\u{2000}', '\u{200a}', '\u{202f}', '\u{205f}',
        '\u{3000}',
    ] {
        assert!(rt; spaces(c) == (true, true, true), "{c}");
    }
    for c in [LF, CR, LS, PS, EOF, ZWNJ, ZWJ, 'a', '\u{1fff}', '\u{200e}'] {
        assert!(rt; spaces(c) == (false, false, false), "{c}");
    }
    assert!(rt; !is_white_space('\u{85}') && is_irregular_whitespace('\u{85}'));
    assert!(rt; !is_white_space('\u{200b}') && is_irregular_whitespace('\u{200b}'));
}

#[test]
fn line_terminators(rt: HostRuntime) {
    for c in [LF, CR] {
        assert!(rt; is_regular_line_terminator(c) && !is_irregular_line_terminator(c));
    }
    for c in [LS, PS] {
        assert!(rt; is_irregular_line_terminator(c) && !is_regular_line_terminator(c));
    }
    for c in [VT, FF, '\u{85}', '\u{2027}', '\u{202a}', 'n'] {
        assert!(rt; !is_line_terminator(c));
    }
    let separator = [LS_OR_PS_FIRST_BYTE, LS_LAST_2_BYTES[0], LS_LAST_2_BYTES[1]];
    assert!(rt; separator.as_slice() == "\u{2028}".as_bytes());
    let separator = [LS_OR_PS_FIRST_BYTE, PS_LAST_2_BYTES[0], PS_LAST_2_BYTES[1]];
    assert!(rt; separator.as_slice() == "\u{2029}".as_bytes());
}

// Whether a character starts a name, and whether it is part of one.
fn in_names(c: char) -> (bool, bool) {
    (is_identifier_start(c), is_identifier_part(c))
}

#[test]
fn identifier_characters(rt: HostRuntime) {
    for c in ['a', 'Z', '$', '_', '\u{b5}'] {
        assert!(rt; in_names(c) == (true, true), "{c}");
    }
    for c in ['0', '9', '\u{200c}', '\u{200d}'] {
        assert!(rt; in_names(c) == (false, true), "{c}");
    }
    for c in ['-', ' ', '@', '[', '`', '{', '\u{7f}', '\u{a3}'] {
        assert!(rt; in_names(c) == (false, false), "{c}");
    }
}

#[test]
fn ascii_identifier_characters(rt: HostRuntime) {
    for (c, found) in [
        ('x', (true, true)),
        ('4', (false, true)),
        ('.', (false, false)),
    ] {
        assert!(rt;
            (is_identifier_start_ascii(c), is_identifier_part_ascii(c)) == found,
            "{c}"
        );
    }
    assert!(rt; [ASCII_ID_FLAGS.get(36), ASCII_ID_FLAGS.get(48)] == [3, 2]);
    assert!(rt; Align64([7; 128]).get(127) == 7);
}

#[test]
fn other_identifier_characters(rt: HostRuntime) {
    for (c, found) in [
        ('\u{e9}', (true, true)),
        ('\u{301}', (false, true)),
        ('\u{a3}', (false, false)),
    ] {
        let told = (
            is_identifier_start_unicode(c),
            is_identifier_part_unicode(c),
        );
        assert!(rt; told == found, "{c}");
    }
}
