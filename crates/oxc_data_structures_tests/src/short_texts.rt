use oxc_data_structures::branch_hints::{likely, unlikely};
use oxc_data_structures::inline_string::{InlineString, UnsignedInt};
use oxc_data_structures::str::const_str_eq;
use std::alloc::{AllocError, Global};
use std::test::Fail;

#[test]
fn bounds_of_numbers_that_keep_a_length(rt: HostRuntime) {
    assert!(rt; (u8::ZERO, u16::ZERO, u32::ZERO, u64::ZERO, usize::ZERO) == (0, 0, 0, 0, 0));
    assert!(rt; (u8::MAX_USIZE, u16::MAX_USIZE, u32::MAX_USIZE) == (255, 65_535, 4_294_967_295));
    assert!(rt; (u64::MAX_USIZE, usize::MAX_USIZE) == (usize::MAX, usize::MAX));
}

#[test]
fn numbers_that_keep_a_length(rt: HostRuntime) {
    assert!(rt; (u8::from_usize(255), u16::from_usize(256)) == (255, 256));
    assert!(rt; (u32::from_usize(65_536), u64::from_usize(usize::MAX)) == (65_536, u64::MAX));
    assert!(rt; (255u8.to_usize(), 256u16.to_usize(), 65_536u32.to_usize()) == (255, 256, 65_536));
    assert!(rt; (u64::MAX.to_usize(), 7usize.to_usize()) == (usize::MAX, 7));
    assert!(rt; usize::from_usize(7) == 7);
}

// A text that was pushed, changed and copied.
fn pushed() -> InlineString<3, u8> {
    let mut short = InlineString::<3, u8>::new();
    short.push(b'a');
    short.push(b'b');
    short.set_ascii(0, b'c');
    short
}

fn lengths(short: &InlineString<3, u8>) -> (u8, usize, bool) {
    (short.len(), short.len_usize(), short.is_empty())
}

#[test]
fn a_short_text_is_pushed(rt: HostRuntime) {
    let short = pushed();
    assert!(rt; short.as_str() == "cb");
    assert!(rt; lengths(&short) == (2, 2, false));
    assert!(rt; lengths(&InlineString::new()) == (0, 0, true));
}

fn shown(alloc: Global) -> Result<String, AllocError> {
    let short = pushed();
    let copy = short.clone()?;
    format!(in alloc; "{copy}|")
}

#[test]
fn a_short_text_is_copied_and_shown(rt: HostRuntime) -> Result<(), Fail> {
    assert!(rt; shown(rt.alloc())?.as_str() == "cb|");
    Ok(())
}

#[test]
fn short_texts_at_two_lengths(rt: HostRuntime) {
    let long = InlineString::<4, usize>::from_str("let");
    assert!(rt; long.as_str() == "let" && long.len() == 3);
    assert!(rt; InlineString::<0, u16>::from_str("").as_str() == "");
}

#[test]
fn texts_and_hints(rt: HostRuntime) {
    for (a, b, equal) in [
        ("", "", true),
        ("ab", "ab", true),
        ("ab", "ac", false),
        ("a", "ab", false),
    ] {
        assert!(rt; const_str_eq(a, b) == equal, "{a} {b}");
    }
    for cond in [false, true] {
        assert!(rt; likely(cond) == cond && unlikely(cond) == cond);
    }
}
