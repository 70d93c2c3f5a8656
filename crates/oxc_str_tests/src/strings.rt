use crate::texts::written;
use bumpalo::Bump;
use oxc_str::{
    EncodeUtf16, IdentBuildHasher, JSChar, JSStr, JSStrBuilder, JSText, Str, new_const_ident,
};
use std::alloc::{AllocError, Global};
use std::borrow::CowStr;
use std::hash::{BuildHasher, Hash, Hasher};
use std::test::Fail;

// A string of these code units.
pub(crate) fn string_of<'a>(arena: &'a Bump, units: &[u16]) -> Result<JSStr<'a>, AllocError> {
    let mut builder = JSStrBuilder::new_in(arena);
    builder.push_utf16(units)?;
    builder.into_js_str()
}

// A lead and its trail in pushes of their own, with empty ones between.
fn push_pair(builder: &mut JSStrBuilder<'_>) -> Result<(), AllocError> {
    builder.push_code_unit(0xD83D)?;
    builder.push_utf16(&[])?;
    builder.push_str("")?;
    builder.push_code_unit(0xDE00)
}

#[test]
fn the_builder_joins_surrogates(rt: HostRuntime) -> Result<(), Fail> {
    let arena = Bump::new(rt.alloc());
    let mut builder = JSStrBuilder::new_in(&arena);
    push_pair(&mut builder)?;
    let face = builder.into_js_str()?;
    assert!(rt; face.as_str() == Some("\u{1F600}") && !face.has_lone_surrogate());
    Ok(())
}

fn joined<'a>(arena: &'a Bump, a: &[u16], b: &[u16]) -> Result<JSStr<'a>, AllocError> {
    let a = string_of(arena, a)?;
    JSStr::from_js_strs2_in(arena, a, string_of(arena, b)?)
}

#[test]
fn two_strings_join_surrogates(rt: HostRuntime) -> Result<(), Fail> {
    let arena = Bump::new(rt.alloc());
    let both = joined(&arena, &[0x61, 0xD83D], &[0xDE00])?;
    assert!(rt; both.as_str() == Some("a\u{1F600}"));
    Ok(())
}

fn units_of(alloc: Global, units: &EncodeUtf16<'_>) -> Result<Vec<u16>, AllocError> {
    units.clone()?.collect(alloc)
}

#[test]
fn a_lone_lead_stays(rt: HostRuntime) -> Result<(), Fail> {
    let arena = Bump::new(rt.alloc());
    let mut builder = JSStrBuilder::with_capacity_in(&arena, 9)?;
    builder.push_code_unit(0xD800)?;
    builder.push_str("x")?;
    let units = units_of(rt.alloc(), &builder.into_js_str()?.encode_utf16())?;
    assert!(rt; units.as_slice() == [0xD800, 0x78].as_slice());
    Ok(())
}

// Its lengths in bytes and in code units, whether it is empty, and whether it has a lone surrogate.
fn sizes(s: JSStr<'_>) -> (usize, usize, bool, bool) {
    (s.len(), s.len_utf16(), s.is_empty(), s.has_lone_surrogate())
}

#[test]
fn a_lone_surrogate_has_bytes(rt: HostRuntime) -> Result<(), Fail> {
    let arena = Bump::new(rt.alloc());
    let lone = string_of(&arena, &[0x61, 0xD800, 0x62])?;
    assert!(rt; lone.as_bytes() == b"a\xED\xA0\x80b".as_slice());
    assert!(rt; sizes(lone) == (5, 3, false, true));
    assert!(rt; sizes(JSStr::empty()) == (0, 0, true, false));
    assert!(rt; lone.as_str().is_none() && lone.as_arena_str().is_none());
    assert!(rt; JSStr::from_bytes_unchecked(lone.as_bytes(), true) == lone);
    Ok(())
}

#[test]
fn a_lone_surrogate_is_shown(rt: HostRuntime) -> Result<(), Fail> {
    let arena = Bump::new(rt.alloc());
    let lone = string_of(&arena, &[0x61, 0xD800, 0x62])?;
    assert!(rt; format!(in rt.alloc(); "{}", lone.display())?.as_str() == "a\\ud800b");
    Ok(())
}

fn of_owned<'a>(alloc: Global, arena: &'a Bump, text: &str) -> Result<JSStr<'a>, AllocError> {
    let owned = CowStr::Owned(String::from_str(alloc, text)?);
    JSStr::from_cow_in(arena, &owned)
}

#[test]
fn a_js_str_is_made_of_a_text(rt: HostRuntime) -> Result<(), Fail> {
    let arena = Bump::new(rt.alloc());
    let ab = JSStr::from_str("ab");
    assert!(rt; ab.as_arena_str() == Some(Str::new_const("ab")));
    assert!(rt; new_const_ident("ab").as_js_str() == ab);
    assert!(rt; JSStr::from_str_in(&arena, "ab")? == ab);
    assert!(rt; of_owned(rt.alloc(), &arena, "ab")? == ab);
    Ok(())
}

fn hash_of<T: Hash>(value: &T) -> u64 {
    let mut hasher = IdentBuildHasher.build_hasher();
    value.hash(&mut hasher);
    hasher.finish()
}

#[test]
fn a_js_str_has_the_hash_of_its_text(rt: HostRuntime) {
    assert!(rt; hash_of(&JSStr::from_str("ab")) == hash_of(&"ab"));
}

fn push_each(builder: &mut JSStrBuilder<'_>) -> Result<(), AllocError> {
    builder.push_str("a")?;
    builder.push('a')?;
    builder.push_js_char(JSChar::from('a'))?;
    builder.push_code_unit(0x61)?;
    builder.push_utf16(&[0x61])?;
    builder.push_code_units(JSStr::from_str("a").encode_utf16())?;
    builder.push_js_str(JSStr::from_str("a"))
}

#[test]
fn each_push_appends(rt: HostRuntime) -> Result<(), Fail> {
    let arena = Bump::new(rt.alloc());
    let mut builder = JSStrBuilder::new_in(&arena);
    push_each(&mut builder)?;
    assert!(rt; builder.into_js_str()?.as_str() == Some("aaaaaaa"));
    Ok(())
}

#[test]
fn a_js_text_owns_its_units(rt: HostRuntime) -> Result<(), Fail> {
    let alloc: Global = rt.alloc();
    let text = JSText::from_units(alloc, &[0x61, 0x62])?;
    assert!(rt; text == JSText::from_str(alloc, "ab")?);
    assert!(rt; text.try_clone(alloc)?.as_js_str() == JSStr::from_str("ab"));
    Ok(())
}

#[test]
fn a_js_text_may_have_a_lone_surrogate(rt: HostRuntime) -> Result<(), Fail> {
    let text = JSText::from_units(rt.alloc(), &[0xDC00])?;
    assert!(rt; text.as_js_str().has_lone_surrogate());
    Ok(())
}

#[test]
fn a_js_str_is_written_as_a_json_string(rt: HostRuntime) -> Result<(), Fail> {
    let alloc: Global = rt.alloc();
    let arena = Bump::new(alloc);
    for (units, text) in [
        ([0x61, 0xD800, 0x62].as_slice(), "\"a\\ud800b\""),
        (&[0xD83D, 0xDE00, 0xDC00], "\"\u{1F600}\\udc00\""),
        (&[0x61, 0x22], "\"a\\\"\""),
    ] {
        let s = string_of(&arena, units)?;
        assert!(rt; written(alloc, &s)?.as_str() == text, "{text}");
    }
    Ok(())
}

// Whether a copy, a borrowed text and a push of a character are refused.
fn refusals<'a>(arena: &'a Bump, builder: &mut JSStrBuilder<'a>) -> (bool, bool, bool) {
    let borrowed: CowStr = CowStr::Borrowed("a");
    (
        JSStr::from_str_in(arena, "a").is_err(),
        JSStr::from_cow_in(arena, &borrowed).is_err(),
        builder.push('a').is_err(),
    )
}

#[test]
fn an_arena_without_room_refuses_strings(rt: HostRuntime) -> Result<(), Fail> {
    let arena = Bump::new(rt.alloc());
    arena.set_allocation_limit(Some(0));
    let mut builder = JSStrBuilder::new_in(&arena);
    assert!(rt; refusals(&arena, &mut builder) == (true, false, true));
    assert!(rt; builder.into_js_str()?.is_empty());
    Ok(())
}
