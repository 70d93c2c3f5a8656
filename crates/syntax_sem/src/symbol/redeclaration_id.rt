//! Ids of lists of redeclarations.

ghost use Rattle.std.specs.Prelude.{◌-◌, ◌<◌, ◌^◌};

/// The id of a list of redeclarations: a number below `u32::MAX`.
#[derive(Clone, Copy, Debug, PartialEq, Eq, PartialOrd, Ord, Hash)]
pub struct RedeclarationId {
    number: u32,
    pub ghost below: { number < 2 ^ 32 - 1 },
}

impl RedeclarationId {
    ghost use Rattle.std.specs.Prelude.{◌-◌, ◌<◌, ◌≡◌, ◌^◌};
    ghost use Rattle.syntax_sem.specs.RedeclarationId as id;

    /// The id with a number.
    pub fn from_usize(n: usize) -> Self
        requires { n < 2 ^ 32 - 1 }
        ensures { id.number_of result ≡ n }
    {
        RedeclarationId { number: n as u32 }
    }

    /// Its number.
    pub fn index(self) -> usize
        ensures value { result ≡ id.number_of self }
        ensures below { result < 2 ^ 32 - 1 }
    {
        self.number as usize
    }
}
