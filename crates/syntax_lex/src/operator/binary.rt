//! Operators between two expressions that are both evaluated (ECMA-262, 13.6 to 13.12).

ghost use Rattle.std.specs.Prelude.{◌+◌, ◌≡◌};
ghost use Rattle.syntax_lex.specs.BinaryOperator as spec;
ghost use Rattle.syntax_lex.specs.Precedence.{level_of};

use super::AssignmentOperator;
use crate::precedence::{GetPrecedence, Precedence};

/// An operator between two expressions that are both evaluated.
#[derive(Clone, Copy, Debug, PartialEq, Eq, Hash)]
pub enum BinaryOperator {
    /// `==`
    Equality,
    /// `!=`
    Inequality,
    /// `===`
    StrictEquality,
    /// `!==`
    StrictInequality,
    /// `<`
    LessThan,
    /// `<=`
    LessEqualThan,
    /// `>`
    GreaterThan,
    /// `>=`
    GreaterEqualThan,
    /// `+`
    Addition,
    /// `-`
    Subtraction,
    /// `*`
    Multiplication,
    /// `/`
    Division,
    /// `%`
    Remainder,
    /// `**`
    Exponential,
    /// `<<`
    ShiftLeft,
    /// `>>`
    ShiftRight,
    /// `>>>`
    ShiftRightZeroFill,
    /// `|`
    BitwiseOR,
    /// `^`
    BitwiseXOR,
    /// `&`
    BitwiseAnd,
    /// `in`
    In,
    /// `instanceof`
    Instanceof,
}

impl BinaryOperator {
    /// Whether it is an equality operator (ECMA-262, 13.11).
    pub fn is_equality(self) -> bool
        ensures { result ≡ spec.is_equality self }
    {
        matches!(
            self,
            Self::Equality | Self::Inequality | Self::StrictEquality | Self::StrictInequality
        )
    }

    /// Whether it is `<`, `<=`, `>` or `>=`.
    pub fn is_compare(self) -> bool
        ensures { result ≡ spec.is_compare self }
    {
        matches!(
            self,
            Self::LessThan | Self::LessEqualThan | Self::GreaterThan | Self::GreaterEqualThan
        )
    }

    /// Whether it computes a sum, a difference, a product, a quotient, a remainder or a power.
    pub fn is_arithmetic(self) -> bool
        ensures { result ≡ spec.is_arithmetic self }
    {
        matches!(
            self,
            Self::Addition
                | Self::Subtraction
                | Self::Multiplication
                | Self::Division
                | Self::Remainder
                | Self::Exponential
        )
    }

    /// Whether it is a multiplicative operator (ECMA-262, 13.7).
    pub fn is_multiplicative(self) -> bool
        ensures { result ≡ spec.is_multiplicative self }
    {
        matches!(
            self,
            Self::Multiplication | Self::Division | Self::Remainder
        )
    }

    /// Whether it is `in` or `instanceof`.
    pub fn is_relational(self) -> bool
        ensures { result ≡ spec.is_relational self }
    {
        matches!(self, Self::In | Self::Instanceof)
    }

    /// Whether it is `in`.
    pub fn is_in(self) -> bool
        ensures { result ≡ spec.is_in self }
    {
        matches!(self, Self::In)
    }

    /// Whether it is `instanceof`.
    pub fn is_instance_of(self) -> bool
        ensures { result ≡ spec.is_instance_of self }
    {
        matches!(self, Self::Instanceof)
    }

    /// Whether it shifts or works bit by bit.
    pub fn is_bitwise(self) -> bool
        ensures { result ≡ spec.is_bitwise self }
    {
        matches!(
            self,
            Self::ShiftLeft
                | Self::ShiftRight
                | Self::ShiftRightZeroFill
                | Self::BitwiseOR
                | Self::BitwiseXOR
                | Self::BitwiseAnd
        )
    }

    /// Whether it is a shift operator (ECMA-262, 13.9).
    pub fn is_bitshift(self) -> bool
        ensures { result ≡ spec.is_bitshift self }
    {
        matches!(
            self,
            Self::ShiftLeft | Self::ShiftRight | Self::ShiftRightZeroFill
        )
    }

    /// Whether it works on numbers or on strings alone: it is arithmetic or bitwise.
    pub fn is_numeric_or_string_binary_operator(self) -> bool
        ensures { result ≡ spec.is_numeric_or_string_binary_operator self }
    {
        matches!(
            self,
            Self::Addition
                | Self::Subtraction
                | Self::Multiplication
                | Self::Division
                | Self::Remainder
                | Self::Exponential
                | Self::ShiftLeft
                | Self::ShiftRight
                | Self::ShiftRightZeroFill
                | Self::BitwiseOR
                | Self::BitwiseXOR
                | Self::BitwiseAnd
        )
    }

    /// Whether it is written as a word.
    pub fn is_keyword(self) -> bool
        ensures { result ≡ spec.is_keyword self }
    {
        matches!(self, Self::In | Self::Instanceof)
    }

    /// The operator that says the same with its sides swapped: `<` and `>`, `<=` and `>=`; else `None`.
    pub fn compare_inverse_operator(self) -> Option<Self>
        ensures { result ≡ spec.compare_inverse_operator self }
    {
        match self {
            Self::LessThan => Some(Self::GreaterThan),
            Self::LessEqualThan => Some(Self::GreaterEqualThan),
            Self::GreaterThan => Some(Self::LessThan),
            Self::GreaterEqualThan => Some(Self::LessEqualThan),
            _ => None,
        }
    }

    /// The operator that says the opposite: `==` and `!=`, `===` and `!==`; else `None`.
    pub fn equality_inverse_operator(self) -> Option<Self>
        ensures { result ≡ spec.equality_inverse_operator self }
    {
        match self {
            Self::Equality => Some(Self::Inequality),
            Self::Inequality => Some(Self::Equality),
            Self::StrictEquality => Some(Self::StrictInequality),
            Self::StrictInequality => Some(Self::StrictEquality),
            _ => None,
        }
    }

    /// The operator that assigns its answer; `None` where there is none.
    pub fn to_assignment_operator(self) -> Option<AssignmentOperator>
        ensures { result ≡ spec.to_assignment_operator self }
    {
        match self {
            Self::Addition => Some(AssignmentOperator::Addition),
            Self::Subtraction => Some(AssignmentOperator::Subtraction),
            Self::Multiplication => Some(AssignmentOperator::Multiplication),
            Self::Division => Some(AssignmentOperator::Division),
            Self::Remainder => Some(AssignmentOperator::Remainder),
            Self::Exponential => Some(AssignmentOperator::Exponential),
            Self::ShiftLeft => Some(AssignmentOperator::ShiftLeft),
            Self::ShiftRight => Some(AssignmentOperator::ShiftRight),
            Self::ShiftRightZeroFill => Some(AssignmentOperator::ShiftRightZeroFill),
            Self::BitwiseOR => Some(AssignmentOperator::BitwiseOR),
            Self::BitwiseXOR => Some(AssignmentOperator::BitwiseXOR),
            Self::BitwiseAnd => Some(AssignmentOperator::BitwiseAnd),
            _ => None,
        }
    }

    /// How it is written.
    pub fn as_str(self) -> &'static str
        ensures { result.now ≡ spec.text_of self }
    {
        match self {
            Self::Equality => "==",
            Self::Inequality => "!=",
            Self::StrictEquality => "===",
            Self::StrictInequality => "!==",
            Self::LessThan => "<",
            Self::LessEqualThan => "<=",
            Self::GreaterThan => ">",
            Self::GreaterEqualThan => ">=",
            Self::Addition => "+",
            Self::Subtraction => "-",
            Self::Multiplication => "*",
            Self::Division => "/",
            Self::Remainder => "%",
            Self::Exponential => "**",
            Self::ShiftLeft => "<<",
            Self::ShiftRight => ">>",
            Self::ShiftRightZeroFill => ">>>",
            Self::BitwiseOR => "|",
            Self::BitwiseXOR => "^",
            Self::BitwiseAnd => "&",
            Self::In => "in",
            Self::Instanceof => "instanceof",
        }
    }

    /// The level just below its own.
    pub fn lower_precedence(self) -> Precedence
        ensures { level_of result + 1 ≡ level_of (spec.precedence_of self) }
    {
        match self {
            Self::BitwiseOR => Precedence::LogicalAnd,
            Self::BitwiseXOR => Precedence::BitwiseOr,
            Self::BitwiseAnd => Precedence::BitwiseXor,
            Self::Equality | Self::Inequality | Self::StrictEquality | Self::StrictInequality =>
                Precedence::BitwiseAnd,
            Self::LessThan
            | Self::LessEqualThan
            | Self::GreaterThan
            | Self::GreaterEqualThan
            | Self::In
            | Self::Instanceof => Precedence::Equals,
            Self::ShiftLeft | Self::ShiftRight | Self::ShiftRightZeroFill => Precedence::Compare,
            Self::Addition | Self::Subtraction => Precedence::Shift,
            Self::Multiplication | Self::Division | Self::Remainder => Precedence::Add,
            Self::Exponential => Precedence::Multiply,
        }
    }
}

impl GetPrecedence for BinaryOperator {
    ghost precedence_of = { spec.precedence_of };

    fn precedence(&self) -> Precedence {
        match self {
            Self::BitwiseOR => Precedence::BitwiseOr,
            Self::BitwiseXOR => Precedence::BitwiseXor,
            Self::BitwiseAnd => Precedence::BitwiseAnd,
            Self::Equality | Self::Inequality | Self::StrictEquality | Self::StrictInequality =>
                Precedence::Equals,
            Self::LessThan
            | Self::LessEqualThan
            | Self::GreaterThan
            | Self::GreaterEqualThan
            | Self::In
            | Self::Instanceof => Precedence::Compare,
            Self::ShiftLeft | Self::ShiftRight | Self::ShiftRightZeroFill => Precedence::Shift,
            Self::Addition | Self::Subtraction => Precedence::Add,
            Self::Multiplication | Self::Division | Self::Remainder => Precedence::Multiply,
            Self::Exponential => Precedence::Exponentiation,
        }
    }
}
