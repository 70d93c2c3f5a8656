use free_names::{Guard, base54, free_name_from, free_names, slot_names};
use std::test::Fail;

#[test]
fn short_names_by_number(rt: HostRuntime) {
    for (n, name) in [
        (0, "e"),
        (52, "Q"),
        (53, "$"),
        (54, "ee"),
        (55, "te"),
        (166, "in"),
        (389, "do"),
        (706, "if"),
        (2_233_602, "eval"),
        (u32::MAX, "xKrTKr"),
    ] {
        assert!(rt; base54(n).as_str() == name, "name {n}");
    }
}

// Whether the name stands at this place.
fn is_at(names: &[String], place: usize, name: &str) -> bool {
    match names.get(place) {
        Some(found) => found.as_str() == name,
        None => false,
    }
}

#[test]
fn a_guard_refuses_what_was_inserted(rt: HostRuntime) -> Result<(), Fail> {
    let mut guard = Guard::new(rt.alloc());
    for (name, refused) in [
        ("e", false),
        ("in", true),
        ("eval", true),
        ("arguments", true),
        ("undefined", false),
    ] {
        assert!(rt; guard.refuses(name) == refused, "{name}");
    }
    guard.insert("e")?;
    guard.insert("t")?;
    guard.insert("e")?;
    for (name, refused) in [("e", true), ("t", true), ("n", false), ("in", true)] {
        assert!(rt; guard.refuses(name) == refused, "{name} after insertion");
    }
    Ok(())
}

#[test]
fn free_names_are_found(rt: HostRuntime) -> Result<(), Fail> {
    let mut guard = Guard::new(rt.alloc());
    for (n, found) in [(0, 0), (166, 167), (389, 390), (2_233_602, 2_233_603)] {
        assert!(rt; free_name_from(n, &guard) == found, "from {n}");
    }
    guard.insert("e")?;
    guard.insert("t")?;
    guard.insert("r")?;
    assert!(rt; free_name_from(0, &guard) == 2 && free_name_from(3, &guard) == 4);
    Ok(())
}

#[test]
fn free_names_follow_their_numbers(rt: HostRuntime) -> Result<(), Fail> {
    let guard = Guard::new(rt.alloc());
    let names = free_names(rt.alloc(), &guard, false, 200)?;
    assert!(rt; names.len() == 200);
    for (place, name) in [
        (0, "e"),
        (53, "$"),
        (54, "ee"),
        (59, "ae"),
        (165, "rn"),
        (166, "an"),
    ] {
        assert!(rt; is_at(names.as_slice(), place, name), "place {place}");
    }
    Ok(())
}

#[test]
fn free_names_pass_over_what_was_inserted(rt: HostRuntime) -> Result<(), Fail> {
    let mut guard = Guard::new(rt.alloc());
    guard.insert("e")?;
    guard.insert("n")?;
    guard.insert("slot_1")?;
    let short = free_names(rt.alloc(), &guard, false, 3)?;
    assert!(rt; short.len() == 3);
    for (place, name) in [(0, "t"), (1, "r"), (2, "i")] {
        assert!(rt; is_at(short.as_slice(), place, name), "place {place}");
    }
    Ok(())
}

#[test]
fn readable_names_pass_over_what_was_inserted(rt: HostRuntime) -> Result<(), Fail> {
    let mut guard = Guard::new(rt.alloc());
    guard.insert("e")?;
    guard.insert("slot_1")?;
    let readable = free_names(rt.alloc(), &guard, true, 11)?;
    assert!(rt; readable.len() == 11);
    for (place, name) in [(0, "slot_0"), (1, "slot_2"), (8, "slot_9"), (10, "slot_11")] {
        assert!(rt; is_at(readable.as_slice(), place, name), "place {place}");
    }
    Ok(())
}

#[test]
fn names_of_one_length_go_by_rising_slot(rt: HostRuntime) -> Result<(), Fail> {
    let guard = Guard::new(rt.alloc());
    let names = free_names(rt.alloc(), &guard, false, 3)?;
    let given = slot_names(rt.alloc(), names, &[1, 3, 2])?;
    for (slot, name) in [(0, "e"), (1, "t"), (2, "n")] {
        assert!(rt; is_at(given.as_slice(), slot, name), "slot {slot}");
    }
    Ok(())
}

#[test]
fn heavier_slots_get_shorter_names(rt: HostRuntime) -> Result<(), Fail> {
    let guard = Guard::new(rt.alloc());
    let mut weights = [7; 56];
    weights[0] = 1;
    weights[3] = 9;
    weights[20] = 0;
    weights[55] = 9;
    let names = free_names(rt.alloc(), &guard, false, 56)?;
    let given = slot_names(rt.alloc(), names, &weights)?;
    for (slot, name) in [
        (0, "ee"),
        (1, "e"),
        (3, "n"),
        (19, "v"),
        (20, "te"),
        (21, "y"),
        (55, "$"),
    ] {
        assert!(rt; is_at(given.as_slice(), slot, name), "slot {slot}");
    }
    Ok(())
}

#[test]
fn of_slots_with_one_weight_the_lower_gets_the_shorter_name(rt: HostRuntime) -> Result<(), Fail> {
    let guard = Guard::new(rt.alloc());
    let names = free_names(rt.alloc(), &guard, false, 55)?;
    let given = slot_names(rt.alloc(), names, &[4; 55])?;
    assert!(rt; is_at(given.as_slice(), 0, "e"));
    assert!(rt; is_at(given.as_slice(), 54, "ee"));
    Ok(())
}
