use bumpalo::Bump;
use oxc_str::{
    ArenaIdentHashMap, ArenaIdentHashSet, IdentBuildHasher, IdentHashMap, IdentHashSet,
    new_const_ident,
};
use std::collections::{HashMap, HashSet};
use std::test::Fail;

#[test]
fn idents_are_keys(rt: HostRuntime) -> Result<(), Fail> {
    let mut counts: IdentHashMap<'_, u32> = HashMap::with_hasher(rt.alloc(), IdentBuildHasher);
    counts.insert(new_const_ident("a"), 1)?;
    counts.insert(new_const_ident("a"), 2)?;
    assert!(rt; counts.get(&new_const_ident("a")).copied() == Some(2));
    Ok(())
}

#[test]
fn idents_are_keys_in_an_arena(rt: HostRuntime) -> Result<(), Fail> {
    let arena = Bump::new(rt.alloc());
    let mut counts: ArenaIdentHashMap<'_, u32> = HashMap::with_hasher(&arena, IdentBuildHasher);
    counts.insert(new_const_ident("a"), 1)?;
    assert!(rt; counts.len() == 1);
    Ok(())
}

#[test]
fn idents_are_members(rt: HostRuntime) -> Result<(), Fail> {
    let mut names: IdentHashSet<'_> = HashSet::with_hasher(rt.alloc(), IdentBuildHasher);
    names.insert(new_const_ident("a"))?;
    assert!(rt; names.contains(&new_const_ident("a")));
    Ok(())
}

#[test]
fn idents_are_members_in_an_arena(rt: HostRuntime) -> Result<(), Fail> {
    let arena = Bump::new(rt.alloc());
    let mut names: ArenaIdentHashSet<'_> = HashSet::with_hasher(&arena, IdentBuildHasher);
    names.insert(new_const_ident("a"))?;
    assert!(rt; !names.contains(&new_const_ident("b")));
    Ok(())
}
