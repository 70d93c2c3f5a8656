//! How operators are written, and of which kinds they are.

use crate::flags::is_listed;
use syntax_lex::operator::{
    AssignmentOperator, BinaryOperator, LogicalOperator, UnaryOperator, UpdateOperator,
};
use syntax_lex::precedence::GetPrecedence;

// Whether exactly those classes hold that are listed.
fn hold_as_listed(classes: &[(&str, bool)], listed: &str) -> bool {
    for (name, holds) in classes {
        if *holds != is_listed(listed, name) {
            return false;
        }
    }
    true
}

fn is_assignment_of(operator: AssignmentOperator, listed: &str) -> bool {
    let classes = [
        ("assign", operator.is_assign()),
        ("logical", operator.is_logical()),
        ("arithmetic", operator.is_arithmetic()),
        ("bitwise", operator.is_bitwise()),
    ];
    hold_as_listed(&classes, listed)
}

// The text of the operator that is applied before the assignment, or `"?"` for one that doesn't lead back.
fn applied(operator: AssignmentOperator) -> &'static str {
    match operator.to_binary_operator() {
        Some(binary) if binary.to_assignment_operator() == Some(operator) => binary.as_str(),
        Some(_) => "?",
        None => applied_in_short(operator),
    }
}

fn applied_in_short(operator: AssignmentOperator) -> &'static str {
    match operator.to_logical_operator() {
        Some(logical) if logical.to_assignment_operator() == operator => logical.as_str(),
        Some(_) => "?",
        None => "",
    }
}

#[test]
fn assignment_operators(rt: HostRuntime) {
    use AssignmentOperator::*;
    for (operator, text, classes) in [
        (Assign, "=", "assign"),
        (Addition, "+=", "arithmetic"),
        (Subtraction, "-=", "arithmetic"),
        (Multiplication, "*=", "arithmetic"),
        (Division, "/=", "arithmetic"),
        (Remainder, "%=", "arithmetic"),
        (Exponential, "**=", "arithmetic"),
        (ShiftLeft, "<<=", "bitwise"),
        (ShiftRight, ">>=", "bitwise"),
        (ShiftRightZeroFill, ">>>=", "bitwise"),
        (BitwiseOR, "|=", "bitwise"),
        (BitwiseXOR, "^=", "bitwise"),
        (BitwiseAnd, "&=", "bitwise"),
        (LogicalOr, "||=", "logical"),
        (LogicalAnd, "&&=", "logical"),
        (LogicalNullish, "??=", "logical"),
    ] {
        assert!(rt;
            operator.as_str() == text && is_assignment_of(operator, classes),
            "text and class"
        );
        assert!(rt;
            text.strip_suffix('=') == Some(applied(operator)),
            "what it applies"
        );
    }
}

fn is_binary_of(operator: BinaryOperator, listed: &str) -> bool {
    let classes = [
        ("equality", operator.is_equality()),
        ("compare", operator.is_compare()),
        ("arithmetic", operator.is_arithmetic()),
        ("multiplicative", operator.is_multiplicative()),
        ("relational", operator.is_relational()),
        ("in", operator.is_in()),
        ("instanceof", operator.is_instance_of()),
        ("bitwise", operator.is_bitwise()),
        ("shift", operator.is_bitshift()),
        ("number", operator.is_numeric_or_string_binary_operator()),
        ("word", operator.is_keyword()),
    ];
    hold_as_listed(&classes, listed)
}

#[test]
fn binary_operators(rt: HostRuntime) {
    use BinaryOperator::*;
    for (operator, text, classes) in [
        (Equality, "==", "equality"),
        (Inequality, "!=", "equality"),
        (StrictEquality, "===", "equality"),
        (StrictInequality, "!==", "equality"),
        (LessThan, "<", "compare"),
        (LessEqualThan, "<=", "compare"),
        (GreaterThan, ">", "compare"),
        (GreaterEqualThan, ">=", "compare"),
        (Addition, "+", "arithmetic number"),
        (Subtraction, "-", "arithmetic number"),
        (Multiplication, "*", "arithmetic multiplicative number"),
        (Division, "/", "arithmetic multiplicative number"),
        (Remainder, "%", "arithmetic multiplicative number"),
        (Exponential, "**", "arithmetic number"),
        (ShiftLeft, "<<", "bitwise shift number"),
        (ShiftRight, ">>", "bitwise shift number"),
        (ShiftRightZeroFill, ">>>", "bitwise shift number"),
        (BitwiseOR, "|", "bitwise number"),
        (BitwiseXOR, "^", "bitwise number"),
        (BitwiseAnd, "&", "bitwise number"),
        (In, "in", "relational in word"),
        (Instanceof, "instanceof", "relational instanceof word"),
    ] {
        assert!(rt;
            operator.as_str() == text && is_binary_of(operator, classes),
            "text and classes"
        );
        assert!(rt;
            operator.lower_precedence() < operator.precedence(),
            "precedence"
        );
    }
}

#[test]
fn inverse_operators(rt: HostRuntime) {
    use BinaryOperator::*;
    assert!(rt; LessThan.compare_inverse_operator() == Some(GreaterThan));
    assert!(rt; GreaterEqualThan.compare_inverse_operator() == Some(LessEqualThan));
    assert!(rt; Equality.compare_inverse_operator().is_none());
    assert!(rt; Equality.equality_inverse_operator() == Some(Inequality));
    assert!(rt; StrictInequality.equality_inverse_operator() == Some(StrictEquality));
    assert!(rt; LessThan.equality_inverse_operator().is_none());
    assert!(rt; In.to_assignment_operator().is_none());
}

fn is_logical_of(operator: LogicalOperator, text: &str) -> bool {
    let classes = [
        ("||", operator.is_or()),
        ("&&", operator.is_and()),
        ("??", operator.is_coalesce()),
    ];
    hold_as_listed(&classes, text)
}

#[test]
fn logical_operators(rt: HostRuntime) {
    for (operator, text) in [
        (LogicalOperator::Or, "||"),
        (LogicalOperator::And, "&&"),
        (LogicalOperator::Coalesce, "??"),
    ] {
        assert!(rt;
            operator.as_str() == text && is_logical_of(operator, text),
            "{text}"
        );
    }
    assert!(rt; UpdateOperator::Increment.as_str() == "++");
    assert!(rt; UpdateOperator::Decrement.as_str() == "--");
}

fn is_unary_of(operator: UnaryOperator, listed: &str) -> bool {
    let classes = [
        ("arithmetic", operator.is_arithmetic()),
        ("not", operator.is_not()),
        ("bitwise", operator.is_bitwise()),
        ("typeof", operator.is_typeof()),
        ("void", operator.is_void()),
        ("delete", operator.is_delete()),
        ("word", operator.is_keyword()),
    ];
    hold_as_listed(&classes, listed)
}

#[test]
fn unary_operators(rt: HostRuntime) {
    for (operator, text, classes) in [
        (UnaryOperator::UnaryPlus, "+", "arithmetic"),
        (UnaryOperator::UnaryNegation, "-", "arithmetic"),
        (UnaryOperator::LogicalNot, "!", "not"),
        (UnaryOperator::BitwiseNot, "~", "bitwise"),
        (UnaryOperator::Typeof, "typeof", "typeof word"),
        (UnaryOperator::Void, "void", "void word"),
        (UnaryOperator::Delete, "delete", "delete word"),
    ] {
        assert!(rt;
            operator.as_str() == text && is_unary_of(operator, classes),
            "{text}"
        );
    }
}
