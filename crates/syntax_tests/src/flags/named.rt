//! The names of the flags, in order.

use bitflags::Flags;
use syntax_sem::class::ElementKind;
use syntax_sem::node::NodeFlags;
use syntax_sem::reference::ReferenceFlags;
use syntax_sem::scope::ScopeFlags;
use syntax_sem::symbol::SymbolFlags;

// Whether these are the names of the constants of a flag type, in order.
fn are_names_of<T: Flags>(names: &[&str]) -> bool {
    let flags = T::flags();
    if flags.len() != names.len() {
        return false;
    }
    for (flag, name) in flags.iter().zip(names) {
        if flag.name() != *name {
            return false;
        }
    }
    true
}

#[test]
fn names_in_order(rt: HostRuntime) {
    assert!(rt; are_names_of::<NodeFlags>(&["JSDOC"]));
    assert!(rt;
        are_names_of::<ElementKind>(&["ACCESSOR", "METHOD", "PROPERTY", "SETTER", "GETTER"])
    );
    assert!(rt;
        are_names_of::<ReferenceFlags>(&[
            "READ",
            "WRITE",
            "TYPE",
            "VALUE_AS_TYPE",
            "NAMESPACE",
            "MEMBER_WRITE_TARGET",
            "NONE",
            "VALUE",
        ])
    );
}

#[test]
fn names_of_scope_flags_in_order(rt: HostRuntime) {
    assert!(rt;
        are_names_of::<ScopeFlags>(&[
            "STRICT_MODE",
            "TOP",
            "FUNCTION",
            "ARROW",
            "CLASS_STATIC_BLOCK",
            "TS_MODULE_BLOCK",
            "CONSTRUCTOR",
            "GET_ACCESSOR",
            "SET_ACCESSOR",
            "CATCH_CLAUSE",
            "DIRECT_EVAL",
            "TS_CONDITIONAL",
            "WITH",
            "VAR",
        ])
    );
}

#[test]
fn names_of_symbol_flags_in_order(rt: HostRuntime) {
    assert!(rt;
        are_names_of::<SymbolFlags>(&[
            "NONE",
            "FUNCTION_SCOPED_VARIABLE",
            "BLOCK_SCOPED_VARIABLE",
            "CONST_VARIABLE",
            "CLASS",
            "CATCH_VARIABLE",
            "FUNCTION",
            "IMPORT",
            "TYPE_IMPORT",
            "TYPE_ALIAS",
            "INTERFACE",
            "REGULAR_ENUM",
            "CONST_ENUM",
            "ENUM_MEMBER",
            "TYPE_PARAMETER",
            "NAMESPACE_MODULE",
            "VALUE_MODULE",
            "AMBIENT",
            "FUNCTION_EXPRESSION",
            "ASYNC_OR_GENERATOR_FUNCTION",
            "ENUM",
            "VARIABLE",
            "BLOCK_SCOPED",
            "VALUE",
            "TYPE",
            "NAMESPACE",
        ])
    );
}
