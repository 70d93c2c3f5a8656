//! References.

use syntax_sem::node::NodeId;
use syntax_sem::reference::{Reference, ReferenceFlags};
use syntax_sem::scope::ScopeId;
use syntax_sem::symbol::SymbolId;

fn reading() -> Reference {
    Reference::new(
        NodeId::from_usize(1),
        ScopeId::from_usize(2),
        ReferenceFlags::READ,
    )
}

#[test]
fn references_to_no_symbol(rt: HostRuntime) {
    let reference = reading();
    assert!(rt; reference.is_read() && !reference.is_write());
    assert!(rt; reference.symbol_id().is_none());
}

#[test]
fn references_get_a_symbol(rt: HostRuntime) {
    let mut reference = reading();
    reference.set_symbol_id(SymbolId::from_usize(3));
    assert!(rt; reference.symbol_id() == Some(SymbolId::from_usize(3)));
}

#[test]
fn references_get_other_flags(rt: HostRuntime) {
    let mut reference = reading();
    *reference.flags_mut() = ReferenceFlags::TYPE;
    assert!(rt; reference.is_type() && !reference.is_value());
}

#[test]
fn references_to_symbols(rt: HostRuntime) {
    let node = NodeId::from_usize(1);
    let scope = ScopeId::from_usize(2);
    let symbol = SymbolId::from_usize(3);
    let known = Reference::new_with_symbol_id(node, symbol, scope, ReferenceFlags::WRITE);
    assert!(rt; known.is_write() && known.is_value());
    assert!(rt; (known.node_id(), known.scope_id()) == (node, scope));
    assert!(rt; known.symbol_id() == Some(symbol) && known.flags() == ReferenceFlags::WRITE);
}
