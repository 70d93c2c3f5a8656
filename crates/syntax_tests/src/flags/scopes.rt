//! Flags of scopes.

use super::wrong_call;
use bitflags::Flags;
use syntax_sem::scope::ScopeFlags;

// Each call's answer of flags, and the names of the constants of which it answers yes.
fn scope_calls(flags: ScopeFlags) -> [(bool, &'static str); 15] {
    [
        (flags.is_strict_mode(), "STRICT_MODE"),
        (flags.is_top(), "TOP VAR"),
        (flags.is_function(), "FUNCTION VAR"),
        (flags.is_arrow(), "ARROW"),
        (flags.is_constructor(), "CONSTRUCTOR"),
        (flags.is_set_accessor(), "SET_ACCESSOR"),
        (flags.is_catch_clause(), "CATCH_CLAUSE"),
        (flags.is_with(), "WITH"),
        (flags.is_block(), "STRICT_MODE"),
        (flags.is_class_static_block(), "CLASS_STATIC_BLOCK VAR"),
        (flags.is_ts_module_block(), "TS_MODULE_BLOCK VAR"),
        (flags.is_set_or_get_accessor(), "GET_ACCESSOR SET_ACCESSOR"),
        (flags.is_ts_conditional(), "TS_CONDITIONAL"),
        (flags.contains_direct_eval(), "DIRECT_EVAL"),
        (
            flags.is_var(),
            "TOP FUNCTION CLASS_STATIC_BLOCK TS_MODULE_BLOCK VAR",
        ),
    ]
}

#[test]
fn scope_flags(rt: HostRuntime) {
    for flag in ScopeFlags::flags() {
        assert!(rt; wrong_call(&scope_calls(*flag.value()), flag.name()).is_none());
    }
}

#[test]
fn strict_scopes(rt: HostRuntime) {
    let strict = ScopeFlags::TOP.with_strict_mode(true);
    assert!(rt; strict.bits() == 3);
    assert!(rt; ScopeFlags::TOP.with_strict_mode(false) == ScopeFlags::TOP);
    assert!(rt; ScopeFlags::empty().is_block() && !strict.is_block());
    assert!(rt; ScopeFlags::all().bits() == 0x1fff);
}
