//! Identifier names.

use std::alloc::{AllocError, Global};
use std::test::Fail;
use syntax_lex::identifier::{
    is_identifier_name, is_identifier_name_patched, is_identifier_part, is_identifier_start,
};

#[test]
fn identifier_names(rt: HostRuntime) {
    for name in [
        "a0",
        "$9",
        "\u{b5}",
        "x\u{30fb}",
        "a\u{200d}b",
        "_",
        "\u{1d5d}z",
    ] {
        assert!(rt; is_identifier_name(name), "{name}");
    }
    for name in ["0a", "a-Z", "", "\u{a3}", "a\u{a3}", "\u{301}a", "a b"] {
        assert!(rt;
            !is_identifier_name(name) && !is_identifier_name_patched(name),
            "{name}"
        );
    }
    assert!(rt; is_identifier_name_patched("a0") && is_identifier_name_patched("\u{b5}"));
    for name in ["x\u{30fb}", "x\u{ff65}y", "abcdefgh\u{30fb}"] {
        assert!(rt; !is_identifier_name_patched(name), "{name}");
    }
}

// Whether a text is an identifier name, by the definition alone.
fn is_name_by_characters(name: &str) -> bool {
    let mut characters = name.chars();
    match characters.next() {
        Some(first) => is_identifier_start(first) && characters.all(|c| is_identifier_part(c)),
        None => false,
    }
}

// A name of `a`s with another character at one place.
fn name_with(alloc: Global, len: usize, place: usize, other: &str) -> Result<String, AllocError> {
    let mut name = String::new(alloc);
    for i in 0..len {
        name.push_str(if i == place { other } else { "a" })?;
    }
    Ok(name)
}

// Whether both calls answer as the definition does, the patched one no of a name with a katakana dot in it.
fn is_told_alike(name: &str, is_dotted: bool) -> bool {
    let is_name = is_name_by_characters(name);
    is_identifier_name(name) == is_name
        && is_identifier_name_patched(name) == (is_name && !is_dotted)
}

// Names of each length to 20, each with another character at each place, against the loop over characters.
#[test]
fn names_by_blocks_as_by_characters(rt: HostRuntime) -> Result<(), Fail> {
    for len in 0..21usize {
        for place in 0..21usize {
            for other in ["b", "9", "-", "\u{e9}", "\u{a3}", "\u{30fb}"] {
                let name = name_with(rt.alloc(), len, place, other)?;
                let is_dotted = other == "\u{30fb}" && place < len;
                assert!(rt; is_told_alike(name.as_str(), is_dotted), "{name}");
            }
        }
    }
    Ok(())
}
