//! How tightly operators bind (ECMA-262, 13, read from the comma operator up).

ghost use Rattle.std.specs.Ordering.{nat_cmp};
ghost use Rattle.std.specs.Prelude.{◌≡◌, not};
ghost use Rattle.oxc_str.specs.Equality.{DecidesEquality};
ghost use Rattle.syntax_lex.specs.Precedence as spec;

/// What has a precedence.
pub trait GetPrecedence {
    ghost use Rattle.syntax_lex.specs.declared.precedence.Precedence.{Precedence};

    ghost precedence_of: { Self → Precedence };

    /// How tightly it binds.
    fn precedence(&self) -> Precedence
        ensures { result ≡ precedence_of self.now };
}

/// A level of binding, of which each binds more tightly than those before it.
#[derive(Clone, Copy, Debug, PartialEq, Eq, PartialOrd, Ord)]
pub enum Precedence {
    /// Below every operator.
    Lowest,
    /// `,`
    Comma,
    /// `...`
    Spread,
    /// `yield`
    Yield,
    /// `=` and the other assignments, and arrow functions.
    Assign,
    /// `? :`
    Conditional,
    /// `??`
    NullishCoalescing,
    /// `||`
    LogicalOr,
    /// `&&`
    LogicalAnd,
    /// `|`
    BitwiseOr,
    /// `^`
    BitwiseXor,
    /// `&`
    BitwiseAnd,
    /// `==`, `!=`, `===` and `!==`.
    Equals,
    /// `<`, `<=`, `>`, `>=`, `in` and `instanceof`.
    Compare,
    /// `<<`, `>>` and `>>>`.
    Shift,
    /// `+` and `-`.
    Add,
    /// `*`, `/` and `%`.
    Multiply,
    /// `**`
    Exponentiation,
    /// Operators before their expression.
    Prefix,
    /// `++` and `--` behind their target.
    Postfix,
    /// `new` without arguments.
    New,
    /// Calls.
    Call,
    /// Members, and what needs no operator.
    Member,
}

impl Precedence {
    /// Whether operators of this level group to the right.
    pub fn is_right_associative(self) -> bool
        ensures { result ≡ spec.is_right_associative self }
    {
        matches!(
            self,
            Self::Exponentiation | Self::Conditional | Self::Assign
        )
    }

    /// Whether operators of this level group to the left.
    pub fn is_left_associative(self) -> bool
        ensures { result ≡ not (spec.is_right_associative self) }
    {
        matches!(
            self,
            Self::Lowest
                | Self::Comma
                | Self::Spread
                | Self::Yield
                | Self::NullishCoalescing
                | Self::LogicalOr
                | Self::LogicalAnd
                | Self::BitwiseOr
                | Self::BitwiseXor
                | Self::BitwiseAnd
                | Self::Equals
                | Self::Compare
                | Self::Shift
                | Self::Add
                | Self::Multiply
                | Self::Prefix
                | Self::Postfix
                | Self::New
                | Self::Call
                | Self::Member
        )
    }

    /// Whether it is the level of a bitwise operator.
    pub fn is_bitwise(self) -> bool
        ensures { result ≡ spec.is_bitwise self }
    {
        matches!(self, Self::BitwiseOr | Self::BitwiseXor | Self::BitwiseAnd)
    }

    /// Whether it is the level of the shifts.
    pub fn is_shift(self) -> bool
        ensures { result ≡ spec.is_shift self }
    {
        matches!(self, Self::Shift)
    }

    /// Whether it is the level of `+` and `-`.
    pub fn is_additive(self) -> bool
        ensures { result ≡ spec.is_additive self }
    {
        matches!(self, Self::Add)
    }
}

/// The law that levels compare as their numbers do.
pub fn precedences_compare_by_level(a: Precedence, b: Precedence)
    ensures equal { DecidesEquality ⟦<Precedence as PartialEq>⟧.eq }
    ensures order { ⟦<Precedence as Ord>⟧.cmp a b ≡ nat_cmp (spec.level_of a) (spec.level_of b) }
{}
