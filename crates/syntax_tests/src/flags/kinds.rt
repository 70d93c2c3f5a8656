//! Flags of nodes, and kinds of elements.

use super::wrong_call;
use bitflags::Flags;
use syntax_sem::class::ElementKind;
use syntax_sem::node::NodeFlags;

#[test]
fn node_flags(rt: HostRuntime) {
    for flag in NodeFlags::flags() {
        let calls = [(flag.value().has_jsdoc(), "JSDOC")];
        assert!(rt; wrong_call(&calls, flag.name()).is_none());
    }
    assert!(rt; NodeFlags::empty() < NodeFlags::JSDOC);
}

#[test]
fn element_kinds(rt: HostRuntime) {
    for flag in ElementKind::flags() {
        let kind = *flag.value();
        let calls = [
            (kind.is_property(), "PROPERTY"),
            (kind.is_method(), "METHOD"),
            (kind.is_accessor(), "ACCESSOR"),
            (kind.is_setter_or_getter(), "SETTER GETTER"),
        ];
        assert!(rt; wrong_call(&calls, flag.name()).is_none());
    }
    assert!(rt; ElementKind::ACCESSOR < ElementKind::METHOD);
    assert!(rt; NodeFlags::all().bits() | ElementKind::all().bits() == 0x1f);
}
