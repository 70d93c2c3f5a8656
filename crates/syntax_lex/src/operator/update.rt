//! Operators that change their target (ECMA-262, 13.4).

ghost use Rattle.std.specs.Prelude.{◌≡◌};
ghost use Rattle.syntax_lex.specs.UpdateOperator as spec;

/// An operator that changes its target (ECMA-262, 13.4).
#[derive(Clone, Copy, Debug, PartialEq, Eq, Hash)]
pub enum UpdateOperator {
    /// `++`
    Increment,
    /// `--`
    Decrement,
}

impl UpdateOperator {
    /// How it is written.
    pub fn as_str(self) -> &'static str
        ensures { result.now ≡ spec.text_of self }
    {
        match self {
            Self::Increment => "++",
            Self::Decrement => "--",
        }
    }
}
