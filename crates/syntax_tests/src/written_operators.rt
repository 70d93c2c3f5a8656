//! Operators as ESTree writes them.

use oxc_estree::{CompactFormatter, ConfigFixes, ESTree, ESTreeSerializer};
use std::alloc::{AllocError, Global};
use std::test::Fail;
use syntax_lex::operator::{
    AssignmentOperator, BinaryOperator, LogicalOperator, UnaryOperator, UpdateOperator,
};

// Whether a value is written so.
fn is_written<T: ESTree>(alloc: Global, value: &T, text: &str) -> Result<bool, AllocError> {
    let mut serializer = ESTreeSerializer::<ConfigFixes, CompactFormatter>::new(
        alloc, false, false,
    )?;
    value.serialize(&mut serializer)?;
    Ok(serializer.into_string().as_str() == text)
}

#[test]
fn operators_are_written_as_strings(rt: HostRuntime) -> Result<(), Fail> {
    let alloc = rt.alloc();
    let shift = AssignmentOperator::ShiftRightZeroFill;
    assert!(rt; is_written(alloc, &shift, "\">>>=\"")?);
    assert!(rt; is_written(alloc, &BinaryOperator::Instanceof, "\"instanceof\"")?);
    assert!(rt; is_written(alloc, &LogicalOperator::Coalesce, "\"??\"")?);
    assert!(rt; is_written(alloc, &UnaryOperator::BitwiseNot, "\"~\"")?);
    assert!(rt; is_written(alloc, &UpdateOperator::Decrement, "\"--\"")?);
    Ok(())
}
