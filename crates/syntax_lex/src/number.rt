//! The bases in which numbers are written (ECMA-262, 12.9.3).

ghost use Rattle.std.specs.Prelude.{◌≡◌};
ghost use Rattle.oxc_str.specs.Equality.{DecidesEquality};
ghost use Rattle.syntax_lex.specs.Number as spec;

/// The base in which a number is written.
#[derive(Clone, Copy, Debug, PartialEq, Eq, Hash)]
pub enum NumberBase {
    /// Base 10 with a point or an exponent.
    Float,
    /// Base 10.
    Decimal,
    /// Base 2.
    Binary,
    /// Base 8.
    Octal,
    /// Base 16.
    Hex,
}

impl NumberBase {
    /// Whether it is base 10.
    pub fn is_base_10(self) -> bool
        ensures { result ≡ spec.is_number_base_10 self }
    {
        matches!(self, Self::Float | Self::Decimal)
    }
}

/// The base in which a BigInt is written.
#[derive(Clone, Copy, Debug, PartialEq, Eq, Hash)]
pub enum BigintBase {
    /// Base 10.
    Decimal,
    /// Base 2.
    Binary,
    /// Base 8.
    Octal,
    /// Base 16.
    Hex,
}

impl BigintBase {
    /// Whether it is base 10.
    pub fn is_base_10(self) -> bool
        ensures { result ≡ spec.is_bigint_base_10 self }
    {
        self == Self::Decimal
    }
}

/// The law that `==` holds exactly between bases that are the same.
pub fn bases_are_equal_exactly()
    ensures number { DecidesEquality ⟦<NumberBase as PartialEq>⟧.eq }
    ensures bigint { DecidesEquality ⟦<BigintBase as PartialEq>⟧.eq }
{}
