use crate::strings::string_of;
use bumpalo::Bump;
use oxc_str::{JSStr, Pred, Text};
use std::test::Fail;

// Where something is found first and last, and whether anywhere, at the front and at the end.
type Found = (Option<usize>, Option<usize>, bool, bool, bool);

fn text_in(s: JSStr<'_>, text: &str) -> Found {
    let text = Text(text);
    (
        s.find(text),
        s.rfind(text),
        s.contains(text),
        s.starts_with(text),
        s.ends_with(text),
    )
}

#[test]
fn texts_are_found(rt: HostRuntime) {
    let s = JSStr::from_str("abcab");
    for (text, found) in [
        ("ab", (Some(0), Some(3), true, true, true)),
        ("abc", (Some(0), Some(0), true, true, false)),
        ("cab", (Some(2), Some(2), true, false, true)),
        ("ac", (None, None, false, false, false)),
        ("", (Some(0), Some(5), true, true, true)),
    ] {
        assert!(rt; text_in(s, text) == found, "{text}");
    }
}

fn char_in(s: JSStr<'_>, c: char) -> Found {
    (
        s.find(c),
        s.rfind(c),
        s.contains(c),
        s.starts_with(c),
        s.ends_with(c),
    )
}

// Of the characters below one.
fn lower_in(s: JSStr<'_>, bound: char) -> Found {
    (
        s.find(Pred(|c: char| c < bound)),
        s.rfind(Pred(|c: char| c < bound)),
        s.contains(Pred(|c: char| c < bound)),
        s.starts_with(Pred(|c: char| c < bound)),
        s.ends_with(Pred(|c: char| c < bound)),
    )
}

#[test]
fn characters_are_found(rt: HostRuntime) -> Result<(), Fail> {
    let arena = Bump::new(rt.alloc());
    let s = string_of(&arena, &[0x61, 0xD800, 0x62, 0xE9])?;
    for (c, found) in [
        ('a', (Some(0), Some(0), true, true, false)),
        ('b', (Some(4), Some(4), true, false, false)),
        ('\u{E9}', (Some(5), Some(5), true, false, true)),
        ('c', (None, None, false, false, false)),
    ] {
        assert!(rt; char_in(s, c) == found, "{c}");
    }
    for (bound, found) in [
        ('a', (None, None, false, false, false)),
        ('c', (Some(0), Some(4), true, true, false)),
    ] {
        assert!(rt; lower_in(s, bound) == found, "{bound}");
    }
    Ok(())
}
