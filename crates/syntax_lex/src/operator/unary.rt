//! Operators before their expression (ECMA-262, 13.5).

ghost use Rattle.std.specs.Prelude.{◌≡◌};
ghost use Rattle.syntax_lex.specs.UnaryOperator as spec;

/// An operator before its expression (ECMA-262, 13.5).
#[derive(Clone, Copy, Debug, PartialEq, Eq, Hash)]
pub enum UnaryOperator {
    /// `+`
    UnaryPlus,
    /// `-`
    UnaryNegation,
    /// `!`
    LogicalNot,
    /// `~`
    BitwiseNot,
    /// `typeof`
    Typeof,
    /// `void`
    Void,
    /// `delete`
    Delete,
}

impl UnaryOperator {
    /// Whether it is `+` or `-`.
    pub fn is_arithmetic(self) -> bool
        ensures { result ≡ spec.is_arithmetic self }
    {
        matches!(self, Self::UnaryPlus | Self::UnaryNegation)
    }

    /// Whether it is `!`.
    pub fn is_not(self) -> bool
        ensures { result ≡ spec.is_not self }
    {
        matches!(self, Self::LogicalNot)
    }

    /// Whether it is `~`.
    pub fn is_bitwise(self) -> bool
        ensures { result ≡ spec.is_bitwise self }
    {
        matches!(self, Self::BitwiseNot)
    }

    /// Whether it is `typeof`.
    pub fn is_typeof(self) -> bool
        ensures { result ≡ spec.is_typeof self }
    {
        matches!(self, Self::Typeof)
    }

    /// Whether it is `void`.
    pub fn is_void(self) -> bool
        ensures { result ≡ spec.is_void self }
    {
        matches!(self, Self::Void)
    }

    /// Whether it is `delete`.
    pub fn is_delete(self) -> bool
        ensures { result ≡ spec.is_delete self }
    {
        matches!(self, Self::Delete)
    }

    /// Whether it is written as a word.
    pub fn is_keyword(self) -> bool
        ensures { result ≡ spec.is_keyword self }
    {
        matches!(self, Self::Typeof | Self::Void | Self::Delete)
    }

    /// How it is written.
    pub fn as_str(self) -> &'static str
        ensures { result.now ≡ spec.text_of self }
    {
        match self {
            Self::UnaryPlus => "+",
            Self::UnaryNegation => "-",
            Self::LogicalNot => "!",
            Self::BitwiseNot => "~",
            Self::Typeof => "typeof",
            Self::Void => "void",
            Self::Delete => "delete",
        }
    }
}
