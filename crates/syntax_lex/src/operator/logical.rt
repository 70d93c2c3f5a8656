//! Operators that evaluate their right side where the left one asks for it (ECMA-262, 13.13).

ghost use Rattle.std.specs.Prelude.{◌+◌, ◌≡◌};
ghost use Rattle.syntax_lex.specs.LogicalOperator as spec;
ghost use Rattle.syntax_lex.specs.Precedence.{level_of};

use super::AssignmentOperator;
use crate::precedence::{GetPrecedence, Precedence};

/// An operator that evaluates its right side where the left one asks for it.
#[derive(Clone, Copy, Debug, PartialEq, Eq)]
pub enum LogicalOperator {
    /// `||`
    Or,
    /// `&&`
    And,
    /// `??`
    Coalesce,
}

impl LogicalOperator {
    /// Whether it is `||`.
    pub fn is_or(self) -> bool
        ensures { result ≡ spec.is_or self }
    {
        matches!(self, Self::Or)
    }

    /// Whether it is `&&`.
    pub fn is_and(self) -> bool
        ensures { result ≡ spec.is_and self }
    {
        matches!(self, Self::And)
    }

    /// Whether it is `??`.
    pub fn is_coalesce(self) -> bool
        ensures { result ≡ spec.is_coalesce self }
    {
        matches!(self, Self::Coalesce)
    }

    /// How it is written.
    pub fn as_str(self) -> &'static str
        ensures { result.now ≡ spec.text_of self }
    {
        match self {
            Self::Or => "||",
            Self::And => "&&",
            Self::Coalesce => "??",
        }
    }

    /// The level just below its own.
    pub fn lower_precedence(self) -> Precedence
        ensures { level_of result + 1 ≡ level_of (spec.precedence_of self) }
    {
        match self {
            Self::Or => Precedence::NullishCoalescing,
            Self::And => Precedence::LogicalOr,
            Self::Coalesce => Precedence::Conditional,
        }
    }

    /// The operator that assigns its answer.
    pub fn to_assignment_operator(self) -> AssignmentOperator
        ensures { result ≡ spec.to_assignment_operator self }
    {
        match self {
            Self::Or => AssignmentOperator::LogicalOr,
            Self::And => AssignmentOperator::LogicalAnd,
            Self::Coalesce => AssignmentOperator::LogicalNullish,
        }
    }
}

impl GetPrecedence for LogicalOperator {
    ghost precedence_of = { spec.precedence_of };

    fn precedence(&self) -> Precedence {
        match self {
            Self::Or => Precedence::LogicalOr,
            Self::And => Precedence::LogicalAnd,
            Self::Coalesce => Precedence::NullishCoalescing,
        }
    }
}
