//! Operators (ECMA-262, 13): how each is written, what kind it is, and which it turns into.

ghost use Rattle.std.specs.Prelude.{◌≡◌, ◌↔◌, Some};
ghost use Rattle.syntax_lex.specs.AssignmentOperator as assignment_spec;
ghost use Rattle.syntax_lex.specs.BinaryOperator as binary_spec;
ghost use Rattle.oxc_str.specs.Equality.{DecidesEquality};
ghost use Rattle.syntax_lex.specs.LogicalOperator as logical_spec;

mod assignment;
mod binary;
mod logical;
mod unary;
mod update;

pub use assignment::AssignmentOperator;
pub use binary::BinaryOperator;
pub use logical::LogicalOperator;
pub use unary::UnaryOperator;
pub use update::UpdateOperator;

/// The law that an operator is assigned by another exactly where that one assigns it.
pub fn assignments_undo_binary_operators(a: AssignmentOperator, b: BinaryOperator)
    ensures { (binary_spec.to_assignment_operator b ≡ Some a) ↔ (assignment_spec.to_binary_operator a ≡ Some b) }
{}

/// The law that a logical operator is assigned by another exactly where that one assigns it.
pub fn assignments_undo_logical_operators(a: AssignmentOperator, b: LogicalOperator)
    ensures { (logical_spec.to_assignment_operator b ≡ a) ↔ (assignment_spec.to_logical_operator a ≡ Some b) }
{}

/// The law that `==` holds exactly between operators that are the same.
pub fn operators_are_equal_exactly()
    ensures assignment { DecidesEquality ⟦<AssignmentOperator as PartialEq>⟧.eq }
    ensures binary { DecidesEquality ⟦<BinaryOperator as PartialEq>⟧.eq }
    ensures logical { DecidesEquality ⟦<LogicalOperator as PartialEq>⟧.eq }
    ensures unary { DecidesEquality ⟦<UnaryOperator as PartialEq>⟧.eq }
    ensures update { DecidesEquality ⟦<UpdateOperator as PartialEq>⟧.eq }
{}
