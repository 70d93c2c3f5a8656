//! Flags of symbols.

use super::wrong_call;
use bitflags::Flags;
use syntax_sem::symbol::SymbolFlags;

// Each call's answer of flags, and the names of the constants of which it answers yes.
fn symbol_calls(flags: SymbolFlags) -> [(bool, &'static str); 8] {
    [
        (flags.is_const_variable(), "CONST_VARIABLE"),
        (flags.is_catch_variable(), "CATCH_VARIABLE"),
        (flags.is_type_import(), "TYPE_IMPORT"),
        (flags.is_import(), "IMPORT TYPE_IMPORT"),
        (flags.is_ambient(), "AMBIENT"),
        (flags.is_class(), "CLASS BLOCK_SCOPED VALUE TYPE"),
        (flags.is_function(), "FUNCTION VALUE"),
        (
            flags.is_function_scoped_declaration(),
            "FUNCTION_SCOPED_VARIABLE VARIABLE VALUE",
        ),
    ]
}

#[test]
fn symbol_flags(rt: HostRuntime) {
    for flag in SymbolFlags::flags() {
        assert!(rt; wrong_call(&symbol_calls(*flag.value()), flag.name()).is_none());
    }
    assert!(rt; SymbolFlags::all().bits() == 0x7ffff);
}

// Each call's answer of flags, and the names of the flags of one bit of which it answers yes.
fn type_calls(flags: SymbolFlags) -> [(bool, &'static str); 11] {
    [
        (flags.is_type_alias(), "TYPE_ALIAS"),
        (flags.is_interface(), "INTERFACE"),
        (flags.is_const_enum(), "CONST_ENUM"),
        (flags.is_enum(), "REGULAR_ENUM CONST_ENUM"),
        (flags.is_enum_member(), "ENUM_MEMBER"),
        (flags.is_type_parameter(), "TYPE_PARAMETER"),
        (flags.is_namespace_module(), "NAMESPACE_MODULE"),
        (flags.is_value_module(), "VALUE_MODULE"),
        (
            flags.is_type(),
            "TYPE_IMPORT TYPE_ALIAS INTERFACE TYPE_PARAMETER",
        ),
        (
            flags.can_be_referenced_by_type(),
            "CLASS IMPORT TYPE_IMPORT TYPE_ALIAS INTERFACE REGULAR_ENUM CONST_ENUM ENUM_MEMBER TYPE_PARAMETER NAMESPACE_MODULE VALUE_MODULE",
        ),
        (
            flags.can_be_referenced_as_namespace(),
            "IMPORT TYPE_IMPORT REGULAR_ENUM CONST_ENUM NAMESPACE_MODULE VALUE_MODULE",
        ),
    ]
}

// Each call's answer of flags, and the names of the flags of one bit of which it answers yes.
fn value_calls(flags: SymbolFlags) -> [(bool, &'static str); 5] {
    let values =
        "FUNCTION_SCOPED_VARIABLE BLOCK_SCOPED_VARIABLE CLASS FUNCTION IMPORT REGULAR_ENUM CONST_ENUM ENUM_MEMBER VALUE_MODULE";
    [
        (
            flags.is_variable(),
            "FUNCTION_SCOPED_VARIABLE BLOCK_SCOPED_VARIABLE",
        ),
        (
            flags.is_block_scoped(),
            "BLOCK_SCOPED_VARIABLE CLASS REGULAR_ENUM CONST_ENUM",
        ),
        (flags.is_value(), values),
        (flags.can_be_referenced_by_value(), values),
        (
            flags.can_be_referenced_by_value_as_type(),
            "FUNCTION_SCOPED_VARIABLE BLOCK_SCOPED_VARIABLE CLASS FUNCTION IMPORT TYPE_IMPORT REGULAR_ENUM CONST_ENUM ENUM_MEMBER VALUE_MODULE",
        ),
    ]
}

#[test]
fn symbol_flags_of_one_bit(rt: HostRuntime) {
    for flag in SymbolFlags::flags() {
        let flags = *flag.value();
        if flags.bits().count_ones() == 1 {
            assert!(rt; wrong_call(&type_calls(flags), flag.name()).is_none());
            assert!(rt; wrong_call(&value_calls(flags), flag.name()).is_none());
        }
    }
}
