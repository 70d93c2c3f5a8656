//! Flags of references.

use super::wrong_call;
use bitflags::Flags;
use syntax_sem::reference::ReferenceFlags;

// Each call's answer of flags, and the names of the constants of which it answers yes.
fn reference_calls(flags: ReferenceFlags) -> [(bool, &'static str); 11] {
    [
        (flags.is_read(), "READ VALUE"),
        (flags.is_write(), "WRITE VALUE"),
        (flags.is_write_only(), "WRITE"),
        (flags.is_read_write(), "VALUE"),
        (flags.is_value(), "READ WRITE VALUE"),
        (flags.is_type(), "TYPE"),
        (flags.is_type_only(), "TYPE"),
        (
            flags.is_read_only(),
            "READ TYPE VALUE_AS_TYPE NAMESPACE MEMBER_WRITE_TARGET NONE",
        ),
        (flags.is_value_as_type(), "VALUE_AS_TYPE"),
        (flags.is_namespace(), "NAMESPACE"),
        (flags.is_member_write_target(), "MEMBER_WRITE_TARGET"),
    ]
}

#[test]
fn reference_flags(rt: HostRuntime) {
    for flag in ReferenceFlags::flags() {
        assert!(rt; wrong_call(&reference_calls(*flag.value()), flag.name()).is_none());
    }
    let type_and_read = ReferenceFlags::TYPE.union(ReferenceFlags::READ);
    assert!(rt; type_and_read.is_type() && !type_and_read.is_type_only());
}

#[test]
fn bits_of_reference_flags(rt: HostRuntime) {
    let rows = [
        (ReferenceFlags::read(), 1),
        (ReferenceFlags::write(), 2),
        (ReferenceFlags::read_write(), 3),
        (ReferenceFlags::default(), 0),
        (ReferenceFlags::all(), 0x3f),
    ];
    for (flags, bits) in rows {
        assert!(rt; flags.bits() == bits);
    }
}
