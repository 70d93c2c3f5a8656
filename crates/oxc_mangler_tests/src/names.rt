//! The names that symbols get, by options and trees.

use crate::mangled::{Asked, USUAL, mangled};
use crate::programs::{
    BLOCKS, EVAL, EXPORTS, INNER, RANKED, SCRIPT, SHADOWED, SHORTHAND, UNBOUND, WITH, WRAPPED,
};
use std::test::Fail;

#[test]
fn symbols_get_names(rt: HostRuntime) -> Result<(), Fail> {
    for (text, wanted) in [
        (BLOCKS, "e e "),
        (INNER, "e t "),
        (SCRIPT, "f e "),
        (UNBOUND, "n "),
        (SHORTHAND, "e "),
        (SHADOWED, "e e "),
        (EXPORTS, "x e "),
        (EVAL, "f a g e "),
        (RANKED, "e t "),
        (WITH, "f o a e "),
        (WRAPPED, "e t e t t "),
    ] {
        assert!(rt;
            mangled(rt.alloc(), text, USUAL, "")?.as_str() == wanted,
            "{text}"
        );
    }
    Ok(())
}

#[test]
fn options_are_heeded(rt: HostRuntime) -> Result<(), Fail> {
    let top_level = Asked {
        top_level: Some(true),
        ..USUAL
    };
    let function = Asked {
        function: true,
        ..USUAL
    };
    let debug = Asked {
        debug: true,
        ..USUAL
    };
    for (text, asked, reserved, wanted) in [
        (SCRIPT, top_level, "", "e e "),
        (SHADOWED, function, "", "f e "),
        (RANKED, debug, "", "slot_0 slot_1 "),
        (RANKED, USUAL, "et", "n r "),
        (INNER, USUAL, "x", "x e "),
    ] {
        let names = mangled(rt.alloc(), text, asked, reserved)?;
        assert!(rt; names.as_str() == wanted, "{text}");
    }
    Ok(())
}
