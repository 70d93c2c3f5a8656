use crate::strings::string_of;
use bumpalo::Bump;
use oxc_str::{JSChar, JSChars};
use std::alloc::AllocError;
use std::test::Fail;

// A number, how many bytes its character takes, and whether it is a `char`.
fn char_of(number: u32) -> Option<(u32, usize, bool)> {
    let c = JSChar::from_u32(number)?;
    Some((c.to_u32(), c.len_bytes(), c.to_char().is_some()))
}

#[test]
fn a_js_char_is_its_number(rt: HostRuntime) {
    for (number, bytes, is_char) in [
        (0x61, 1, true),
        (0xE9, 2, true),
        (0xD800, 3, false),
        (0xFFFF, 3, true),
        (0x1_F600, 4, true),
    ] {
        assert!(rt;
            char_of(number) == Some((number, bytes, is_char)),
            "{number}"
        );
    }
    assert!(rt; char_of(0x11_0000).is_none());
}

// The last character of a copy, the one before it, the first, and the one after that.
fn ends(chars: &JSChars<'_>) -> Result<[Option<u32>; 4], AllocError> {
    let mut chars = chars.clone()?;
    let last = chars.next_back().map(|c: JSChar| c.to_u32());
    let before = chars.next_back().map(|c: JSChar| c.to_u32());
    let first = chars.next().map(|c: JSChar| c.to_u32());
    let none = chars.next().map(|c: JSChar| c.to_u32());
    Ok([last, before, first, none])
}

#[test]
fn characters_from_both_ends(rt: HostRuntime) -> Result<(), Fail> {
    let arena = Bump::new(rt.alloc());
    let lone = string_of(&arena, &[0x61, 0xD800, 0x62])?;
    assert!(rt; ends(&lone.chars())? == [Some(0x62), Some(0xD800), Some(0x61), None]);
    Ok(())
}
