use bumpalo::Bump;
use oxc_estree::{CompactFormatter, ConfigFixes, ESTree, ESTreeSerializer};
use oxc_str::{ArenaStr, CompactStr, Str};
use std::alloc::{AllocError, Global};
use std::borrow::CowStr;
use std::test::Fail;

// What is written of a value.
pub(crate) fn written<T: ESTree>(alloc: Global, value: &T) -> Result<String, AllocError> {
    let mut serializer = ESTreeSerializer::<ConfigFixes, CompactFormatter>::new(
        alloc, false, false,
    )?;
    value.serialize(&mut serializer)?;
    Ok(serializer.into_string())
}

fn of_owned<'a>(alloc: Global, arena: &'a Bump, text: Str<'_>) -> Result<Str<'a>, AllocError> {
    let owned = CowStr::Owned(text.into_string(alloc)?);
    Str::from_cow_in(arena, &owned)
}

#[test]
fn a_str_is_its_text(rt: HostRuntime) -> Result<(), Fail> {
    let arena = Bump::new(rt.alloc());
    let ab: ArenaStr<'_> = Str::from_strs2_in(&arena, "a", "b")?;
    assert!(rt; ab.as_str() == "ab" && Str::from_str_in(&arena, "ab")? == ab);
    let borrowed: CowStr = CowStr::Borrowed("ab");
    assert!(rt; Str::from_cow_in(&arena, &borrowed)? == ab);
    assert!(rt; of_owned(rt.alloc(), &arena, ab)? == ab && Str::empty() == Str::new_const(""));
    Ok(())
}

#[test]
fn texts_of_a_str(rt: HostRuntime) -> Result<(), Fail> {
    let alloc: Global = rt.alloc();
    let ab = Str::new_const("ab");
    assert!(rt; ab.into_compact_str(alloc)?.as_str() == "ab");
    assert!(rt; ab.to_compact_str(alloc)?.as_str() == "ab");
    assert!(rt; format!(in alloc; "{ab:>4}")?.as_str() == "  ab");
    assert!(rt; written(alloc, &Str::new_const("a\"b"))?.as_str() == "\"a\\\"b\"");
    Ok(())
}

#[test]
fn a_compact_str_is_its_text(rt: HostRuntime) -> Result<(), Fail> {
    let text = CompactStr::new(rt.alloc(), "ab")?;
    assert!(rt; text.len() == 2 && !text.is_empty());
    let again = CompactStr::from_string(text.into_string());
    assert!(rt; again.as_str() == "ab");
    Ok(())
}

#[test]
fn compact_strs_are_compared(rt: HostRuntime) -> Result<(), Fail> {
    let alloc: Global = rt.alloc();
    let text = CompactStr::new_const(alloc, "ab")?;
    assert!(rt; text.try_clone(alloc)? == text);
    assert!(rt; CompactStr::new(alloc, "abc")? > text);
    assert!(rt; format!(in alloc; "{text}")?.as_str() == "ab");
    Ok(())
}

fn refusals(arena: &Bump) -> (bool, bool, bool) {
    let borrowed: CowStr = CowStr::Borrowed("a");
    (
        Str::from_str_in(arena, "a").is_err(),
        Str::from_strs2_in(arena, "a", "b").is_err(),
        Str::from_cow_in(arena, &borrowed).is_err(),
    )
}

#[test]
fn an_arena_without_room_refuses_copies(rt: HostRuntime) -> Result<(), Fail> {
    let arena = Bump::new(rt.alloc());
    arena.set_allocation_limit(Some(0));
    assert!(rt; refusals(&arena) == (true, true, false));
    Ok(())
}
