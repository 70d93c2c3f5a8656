use crate::texts::written;
use bumpalo::Bump;
use oxc_str::{Ident, IdentBuildHasher, Str, ident_hash, new_const_ident};
use std::alloc::{AllocError, Global};
use std::borrow::CowStr;
use std::hash::{BuildHasher, Hash, Hasher};
use std::test::Fail;

// A text, the hash of its bytes and the state that they leave, as a script outside the crate computes them.
const HASHES: [(&str, u32, u64); 8] = [
    ("", 0, 0),
    ("x", 0xA772_3236, 0xA772_3236_A773_3236),
    ("foo", 0x2C4D_F0CB, 0x2C4D_F0CB_2C4E_F0CB),
    ("this", 0xA950_64E1, 0xA950_64E1_A954_64E1),
    ("document", 0x336F_9137, 0x336F_9137_3367_9137),
    ("arguments", 0xE637_8156, 0xE637_8156_E63E_8156),
    ("exportedBindings", 0x9E09_FB6A, 0x9E09_FB6A_9E19_FB6A),
    ("exportedBindings2", 0xA0D0_AC9E, 0xA0D0_AC9E_A0C1_AC9E),
];

// The hash of a text, and the states of a hasher before it, after its identifier and after its bytes.
fn states(text: &'static str) -> (u32, u64, u64, u64) {
    let mut hasher = IdentBuildHasher.build_hasher();
    let empty = hasher.finish();
    new_const_ident(text).hash(&mut hasher);
    let of_ident = hasher.finish();
    hasher.write(text.as_bytes());
    (
        ident_hash(text.as_bytes()),
        empty,
        of_ident,
        hasher.finish(),
    )
}

#[test]
fn hashes_are_those_computed_elsewhere(rt: HostRuntime) {
    for (text, hash, state) in HASHES {
        assert!(rt; states(text) == (hash, 0, state, state), "{text}");
    }
}

#[test]
fn an_ident_is_its_text_and_hash(rt: HostRuntime) {
    let ab = new_const_ident("ab");
    assert!(rt; ab.as_str() == "ab" && ab.as_arena_str() == Str::new_const("ab"));
    assert!(rt; Ident::empty() == new_const_ident(""));
    assert!(rt; Ident::new_unhashed("ab") != ab && Ident::new_unhashed("") == Ident::empty());
}

// An identifier of an owned text that another gave.
fn of_owned<'a>(alloc: Global, arena: &'a Bump, ident: Ident<'_>) -> Result<Ident<'a>, AllocError> {
    let owned = CowStr::Owned(ident.into_string(alloc)?);
    Ident::from_cow_in(arena, &owned)
}

#[test]
fn idents_of_an_arena(rt: HostRuntime) -> Result<(), Fail> {
    let arena = Bump::new(rt.alloc());
    let ab = new_const_ident("ab");
    assert!(rt; Ident::from_str_in(&arena, "ab")? == ab);
    assert!(rt; Ident::from_strs2_in(&arena, "a", "b")? == ab);
    let borrowed: CowStr = CowStr::Borrowed("ab");
    assert!(rt; Ident::from_cow_in(&arena, &borrowed)? == ab);
    assert!(rt; of_owned(rt.alloc(), &arena, ab)? == ab);
    Ok(())
}

#[test]
fn texts_of_idents(rt: HostRuntime) -> Result<(), Fail> {
    let alloc: Global = rt.alloc();
    let ab = new_const_ident("ab");
    assert!(rt; ab.into_compact_str(alloc)?.as_str() == "ab");
    assert!(rt; ab.to_compact_str(alloc)?.as_str() == "ab");
    assert!(rt; format!(in alloc; "{ab}")?.as_str() == "ab");
    assert!(rt; written(alloc, &ab)?.as_str() == "\"ab\"");
    Ok(())
}
