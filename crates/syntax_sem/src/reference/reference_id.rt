//! Ids of references.

ghost use Rattle.std.specs.Prelude.{◌-◌, ◌<◌, ◌^◌};

use crate::semantic_id::{CloneInSemanticIds, SemanticId};

/// The id of a reference: a number below `u32::MAX`.
#[derive(Clone, Copy, Debug, PartialEq, Eq, PartialOrd, Ord, Hash)]
pub struct ReferenceId {
    number: u32,
    pub ghost below: { number < 2 ^ 32 - 1 },
}

impl ReferenceId {
    ghost use Rattle.std.specs.Prelude.{◌-◌, ◌<◌, ◌≡◌, ◌^◌};
    ghost use Rattle.syntax_sem.specs.ReferenceId as id;

    /// The id with a number.
    pub fn from_usize(n: usize) -> Self
        requires { n < 2 ^ 32 - 1 }
        ensures { id.number_of result ≡ n }
    {
        ReferenceId { number: n as u32 }
    }

    /// Its number.
    pub fn index(self) -> usize
        ensures value { result ≡ id.number_of self }
        ensures below { result < 2 ^ 32 - 1 }
    {
        self.number as usize
    }
}

impl SemanticId for ReferenceId {
    ghost use Rattle.std.specs.Prelude.{◌≡◌};
    ghost use Rattle.syntax_sem.specs.SemanticId.{cloned_option};
    ghost use Rattle.syntax_sem.specs.ReferenceId as id;

    ghost zero = { id.zero };

    fn clone_id(&self, with: CloneInSemanticIds) -> Self {
        match with {
            CloneInSemanticIds::With => *self,
            CloneInSemanticIds::Without => ReferenceId { number: 0 },
        }
    }

    fn clone_cell_option_id(id: Option<Self>, with: CloneInSemanticIds) -> Option<Self>
        ensures { result ≡ cloned_option id with }
    {
        match with {
            CloneInSemanticIds::With => id,
            CloneInSemanticIds::Without => None,
        }
    }
}
