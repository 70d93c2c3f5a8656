//! That `oxc_syntax` gives each module by its name.

use oxc_str::CompactStr;
use oxc_syntax::{
    class, constant_value, es_target, identifier, keyword, line_terminator, module_record, node,
    number, operator, precedence, reference, scope, semantic_id, span, symbol,
};
use std::test::Fail;

#[test]
fn modules_of_the_lexer(rt: HostRuntime) {
    assert!(rt; identifier::is_identifier_name("a") && keyword::is_reserved_keyword("let"));
    assert!(rt; line_terminator::is_line_terminator(line_terminator::LS));
    assert!(rt; operator::UnaryOperator::Void.is_void());
    assert!(rt; number::BigintBase::Decimal.is_base_10());
    assert!(rt; precedence::Precedence::Add.is_additive());
    assert!(rt; es_target::ESTarget::default() == es_target::ESTarget::ESNext);
}

#[test]
fn modules_of_ids_and_flags(rt: HostRuntime) {
    assert!(rt; node::NodeId::ROOT == node::NodeId::default());
    assert!(rt; class::ClassId::from_usize(1).index() == 1);
    assert!(rt; span::Span::new(1, 2).start == 1);
    assert!(rt; symbol::SymbolFlags::FUNCTION.is_function());
    let _with = semantic_id::CloneInSemanticIds::With;
}

#[test]
fn module_of_references(rt: HostRuntime) {
    let scope = scope::ScopeId::from_usize(0);
    let flags = reference::ReferenceFlags::read();
    assert!(rt; reference::Reference::new(node::NodeId::ROOT, scope, flags).is_read());
}

#[test]
fn modules_of_values_and_records(rt: HostRuntime) -> Result<(), Fail> {
    let value = constant_value::ConstantValue::String(CompactStr::new(rt.alloc(), "a")?);
    assert!(rt; value == value);
    assert!(rt; !module_record::ModuleRecord::new(rt.alloc())?.has_module_syntax);
    Ok(())
}
