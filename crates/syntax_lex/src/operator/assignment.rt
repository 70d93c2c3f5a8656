//! Operators of assignments (ECMA-262, 13.15).

ghost use Rattle.std.specs.Prelude.{◌≡◌};
ghost use Rattle.syntax_lex.specs.AssignmentOperator as spec;

use super::{BinaryOperator, LogicalOperator};

/// An operator of an assignment (ECMA-262, 13.15).
#[derive(Clone, Copy, Debug, PartialEq, Eq)]
pub enum AssignmentOperator {
    /// `=`
    Assign,
    /// `+=`
    Addition,
    /// `-=`
    Subtraction,
    /// `*=`
    Multiplication,
    /// `/=`
    Division,
    /// `%=`
    Remainder,
    /// `**=`
    Exponential,
    /// `<<=`
    ShiftLeft,
    /// `>>=`
    ShiftRight,
    /// `>>>=`
    ShiftRightZeroFill,
    /// `|=`
    BitwiseOR,
    /// `^=`
    BitwiseXOR,
    /// `&=`
    BitwiseAnd,
    /// `||=`
    LogicalOr,
    /// `&&=`
    LogicalAnd,
    /// `??=`
    LogicalNullish,
}

impl AssignmentOperator {
    /// Whether it is `=`.
    pub fn is_assign(self) -> bool
        ensures { result ≡ spec.is_assign self }
    {
        matches!(self, Self::Assign)
    }

    /// Whether it is `||=`, `&&=` or `??=`.
    pub fn is_logical(self) -> bool
        ensures { result ≡ spec.is_logical self }
    {
        matches!(
            self,
            Self::LogicalOr | Self::LogicalAnd | Self::LogicalNullish
        )
    }

    /// Whether it computes a sum, a difference, a product, a quotient, a remainder or a power.
    pub fn is_arithmetic(self) -> bool
        ensures { result ≡ spec.is_arithmetic self }
    {
        matches!(
            self,
            Self::Addition
                | Self::Subtraction
                | Self::Multiplication
                | Self::Division
                | Self::Remainder
                | Self::Exponential
        )
    }

    /// Whether it shifts or works bit by bit.
    pub fn is_bitwise(self) -> bool
        ensures { result ≡ spec.is_bitwise self }
    {
        matches!(
            self,
            Self::ShiftLeft
                | Self::ShiftRight
                | Self::ShiftRightZeroFill
                | Self::BitwiseOR
                | Self::BitwiseXOR
                | Self::BitwiseAnd
        )
    }

    /// The logical operator whose answer it assigns; `None` for `=` and the operators with a binary one.
    pub fn to_logical_operator(self) -> Option<LogicalOperator>
        ensures { result ≡ spec.to_logical_operator self }
    {
        match self {
            Self::LogicalOr => Some(LogicalOperator::Or),
            Self::LogicalAnd => Some(LogicalOperator::And),
            Self::LogicalNullish => Some(LogicalOperator::Coalesce),
            _ => None,
        }
    }

    /// The binary operator whose answer it assigns; `None` for `=` and the logical ones.
    pub fn to_binary_operator(self) -> Option<BinaryOperator>
        ensures { result ≡ spec.to_binary_operator self }
    {
        match self {
            Self::Addition => Some(BinaryOperator::Addition),
            Self::Subtraction => Some(BinaryOperator::Subtraction),
            Self::Multiplication => Some(BinaryOperator::Multiplication),
            Self::Division => Some(BinaryOperator::Division),
            Self::Remainder => Some(BinaryOperator::Remainder),
            Self::Exponential => Some(BinaryOperator::Exponential),
            Self::ShiftLeft => Some(BinaryOperator::ShiftLeft),
            Self::ShiftRight => Some(BinaryOperator::ShiftRight),
            Self::ShiftRightZeroFill => Some(BinaryOperator::ShiftRightZeroFill),
            Self::BitwiseOR => Some(BinaryOperator::BitwiseOR),
            Self::BitwiseXOR => Some(BinaryOperator::BitwiseXOR),
            Self::BitwiseAnd => Some(BinaryOperator::BitwiseAnd),
            _ => None,
        }
    }

    /// How it is written.
    pub fn as_str(self) -> &'static str
        ensures { result.now ≡ spec.text_of self }
    {
        match self {
            Self::Assign => "=",
            Self::Addition => "+=",
            Self::Subtraction => "-=",
            Self::Multiplication => "*=",
            Self::Division => "/=",
            Self::Remainder => "%=",
            Self::Exponential => "**=",
            Self::ShiftLeft => "<<=",
            Self::ShiftRight => ">>=",
            Self::ShiftRightZeroFill => ">>>=",
            Self::BitwiseOR => "|=",
            Self::BitwiseXOR => "^=",
            Self::BitwiseAnd => "&=",
            Self::LogicalOr => "||=",
            Self::LogicalAnd => "&&=",
            Self::LogicalNullish => "??=",
        }
    }
}
