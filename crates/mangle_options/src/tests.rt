//! Each call with ample memory.

use crate::{MangleOptions, MangleOptionsKeepNames, ReservedNames};
use oxc_str::CompactStr;
use std::test::Fail;

#[test]
fn options_are_copied(rt: HostRuntime) -> Result<(), Fail> {
    let alloc = rt.alloc();
    let mut options = MangleOptions::new(alloc);
    options.top_level = Some(true);
    options.keep_names.class = true;
    options.reserved.insert(CompactStr::new(alloc, "e")?)?;
    let copy = options.try_clone(alloc)?;
    assert_eq!(rt; copy.top_level, Some(true));
    assert!(rt;
        !copy.keep_names.function && copy.keep_names.class && !copy.debug,
        "settings"
    );
    let listed = copy.reserved_list(alloc)?;
    assert_eq!(rt; listed.as_slice(), ["e"].as_slice());
    let reserved = ReservedNames::new(alloc, &copy)?;
    assert!(rt; reserved.is_reserved("e"), "e is reserved");
    assert!(rt; reserved.is_reserved("arguments"), "arguments is kept");
    assert!(rt; !reserved.is_reserved("t"), "t is not reserved");
    Ok(())
}

#[test]
fn both_or_neither_keep_names(rt: HostRuntime) {
    let all = MangleOptionsKeepNames::all_true();
    assert!(rt; all.function && all.class, "both");
    let none = MangleOptionsKeepNames::all_false();
    assert!(rt; !none.function && !none.class, "neither");
    assert!(rt; MangleOptionsKeepNames::from(true) == all, "from true");
    assert!(rt; MangleOptionsKeepNames::default() == none, "by default");
}
