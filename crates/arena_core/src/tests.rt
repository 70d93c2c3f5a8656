use super::*;
use bumpalo::Bump;
use std::alloc::Global;
use std::test::Fail;

#[test]
fn a_set_lists_its_members(rt: HostRuntime) -> Result<(), Fail> {
    let alloc: Global = rt.alloc();
    let mut set: BitSet<Global> = BitSet::new_in(alloc, 70)?;
    assert_eq!(rt; set.len(), 70);
    set.set_bit(69);
    let last: Vec<usize> = set.ones().collect(alloc)?;
    assert_eq!(rt; last.as_slice(), [69].as_slice());
    set.set_bit(0);
    set.set_bit(64);
    assert!(rt; set.has_bit(64) && !set.has_bit(63) && !set.has_bit(70));
    let all: Vec<usize> = set.ones().collect(alloc)?;
    assert_eq!(rt; all.as_slice(), [0, 64, 69].as_slice());
    set.clear();
    assert!(rt; set.ones().next().is_none());
    Ok(())
}

#[test]
fn an_arena_has_texts_and_sets(rt: HostRuntime) -> Result<(), Fail> {
    let arena = Bump::new(rt.alloc());
    let mut set: BitSet<&Bump> = BitSet::new_in(&arena, 3)?;
    set.set_bit(1);
    assert_eq!(rt; set.ones().next(), Some(1));
    assert_eq!(rt; alloc_str(&arena, "ab")?, "ab");
    assert_eq!(rt; concat_strs(&arena, "a", "b")?, "ab");
    Ok(())
}

#[test]
fn an_arena_without_room_refuses(rt: HostRuntime) -> Result<(), Fail> {
    let arena = Bump::new(rt.alloc());
    arena.set_allocation_limit(Some(0));
    assert!(rt; alloc_str(&arena, "a").is_err());
    assert!(rt; concat_strs(&arena, "a", "b").is_err());
    assert!(rt; BitSet::new_in(&arena, 1).is_err());
    assert!(rt; BitSet::new_in(&arena, 0).is_ok());
    Ok(())
}
