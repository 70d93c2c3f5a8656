//! How tightly operators bind.

use syntax_lex::operator::{BinaryOperator, LogicalOperator};
use syntax_lex::precedence::{GetPrecedence, Precedence};

// Whether an operator binds at this level, and `lower` is the one just below it.
fn binds_at(operator: BinaryOperator, level: Precedence, lower: Precedence) -> bool {
    operator.precedence() == level && operator.lower_precedence() == lower
}

#[test]
fn bitwise_operators(rt: HostRuntime) {
    use BinaryOperator::{BitwiseAnd, BitwiseOR, BitwiseXOR};
    for (operator, level, lower) in [
        (BitwiseOR, Precedence::BitwiseOr, Precedence::LogicalAnd),
        (BitwiseXOR, Precedence::BitwiseXor, Precedence::BitwiseOr),
        (BitwiseAnd, Precedence::BitwiseAnd, Precedence::BitwiseXor),
    ] {
        assert!(rt; binds_at(operator, level, lower));
    }
}

#[test]
fn comparisons_and_shifts(rt: HostRuntime) {
    use BinaryOperator::{In, ShiftRight, StrictEquality};
    for (operator, level, lower) in [
        (StrictEquality, Precedence::Equals, Precedence::BitwiseAnd),
        (In, Precedence::Compare, Precedence::Equals),
        (ShiftRight, Precedence::Shift, Precedence::Compare),
    ] {
        assert!(rt; binds_at(operator, level, lower));
    }
}

#[test]
fn arithmetic_operators(rt: HostRuntime) {
    use BinaryOperator::{Exponential, Remainder, Subtraction};
    for (operator, level, lower) in [
        (Subtraction, Precedence::Add, Precedence::Shift),
        (Remainder, Precedence::Multiply, Precedence::Add),
        (
            Exponential,
            Precedence::Exponentiation,
            Precedence::Multiply,
        ),
    ] {
        assert!(rt; binds_at(operator, level, lower));
    }
}

#[test]
fn logical_operators(rt: HostRuntime) {
    use LogicalOperator::{And, Coalesce, Or};
    for (operator, level, lower) in [
        (Or, Precedence::LogicalOr, Precedence::NullishCoalescing),
        (And, Precedence::LogicalAnd, Precedence::LogicalOr),
        (
            Coalesce,
            Precedence::NullishCoalescing,
            Precedence::Conditional,
        ),
    ] {
        assert!(rt; operator.precedence() == level && operator.lower_precedence() == lower);
    }
}

#[test]
fn levels_that_group_to_the_right(rt: HostRuntime) {
    use Precedence::{Assign, Conditional, Exponentiation};
    for level in [Exponentiation, Conditional, Assign] {
        assert!(rt; level.is_right_associative() && !level.is_left_associative());
    }
}

#[test]
fn levels_that_group_to_the_left(rt: HostRuntime) {
    use Precedence::{Add, Lowest, Member, Yield};
    for level in [Lowest, Yield, Add, Member] {
        assert!(rt; level.is_left_associative() && !level.is_right_associative());
    }
}

#[test]
fn kinds_of_levels(rt: HostRuntime) {
    assert!(rt; Precedence::BitwiseXor.is_bitwise() && !Precedence::Equals.is_bitwise());
    assert!(rt; Precedence::Shift.is_shift() && !Precedence::Add.is_shift());
    assert!(rt; Precedence::Add.is_additive() && !Precedence::Multiply.is_additive());
    assert!(rt; Precedence::Lowest < Precedence::Comma && Precedence::Call < Precedence::Member);
}
