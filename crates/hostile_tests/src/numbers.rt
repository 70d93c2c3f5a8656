//! Numbers as offsets, as code units and as values of literals.

use crate::trees::{MODULE, is_tree};
use std::test::Fail;

const OFFSET: &str = "{'type':'EmptyStatement','end':#}";

const VALUE: &str = "{'type':'ExpressionStatement','expression':{'type':'Literal','value':#}}";

const UNITS: &str = "{'type':'ExpressionStatement','expression':{'type':'Literal','value':[#]}}";

#[test]
fn numbers_are_whole_and_have_bounds(rt: HostRuntime) -> Result<(), Fail> {
    for (place, number, is_taken) in [
        (OFFSET, "4294967295", true),
        (OFFSET, "4294967296", false),
        (OFFSET, "-0", false),
        (OFFSET, "1.0", false),
        (OFFSET, "1e0", false),
        (OFFSET, "null", false),
        (OFFSET, "'1'", false),
        (VALUE, "18446744073709551615", true),
        (VALUE, "18446744073709551616", false),
        (VALUE, "100000000000000000000000000000000000000000", false),
        (VALUE, "-1", false),
        (VALUE, "-9223372036854775809", false),
        (VALUE, "0.5", false),
        (VALUE, "1E2", false),
        (UNITS, "65535", true),
        (UNITS, "65536", false),
        (UNITS, "0.5", false),
        (UNITS, "[0]", false),
    ] {
        assert!(rt;
            is_tree(rt.alloc(), MODULE, place, number)? == is_taken,
            "{number} in {place}"
        );
    }
    Ok(())
}
