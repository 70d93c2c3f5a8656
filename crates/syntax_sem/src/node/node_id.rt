//! Ids of nodes.

ghost use Rattle.std.specs.Prelude.{◌-◌, ◌<◌, ◌^◌};

use crate::semantic_id::{CloneInSemanticIds, SemanticId};

/// The id of a node: a number below `u32::MAX`.
#[derive(Clone, Copy, Debug, PartialEq, Eq, PartialOrd, Ord, Hash)]
pub struct NodeId {
    number: u32,
    pub ghost below: { number < 2 ^ 32 - 1 },
}

impl NodeId {
    ghost use Rattle.std.specs.Prelude.{◌-◌, ◌<◌, ◌≡◌, ◌^◌};
    ghost use Rattle.syntax_sem.specs.NodeId as id;

    /// The id of a node that stands in no table of nodes.
    pub const DUMMY: Self = NodeId { number: 0 };

    /// The id of the Program.
    pub const ROOT: Self = NodeId { number: 0 };

    /// The id with a number.
    pub fn from_usize(n: usize) -> Self
        requires { n < 2 ^ 32 - 1 }
        ensures { id.number_of result ≡ n }
    {
        NodeId { number: n as u32 }
    }

    /// Its number.
    pub fn index(self) -> usize
        ensures value { result ≡ id.number_of self }
        ensures below { result < 2 ^ 32 - 1 }
    {
        self.number as usize
    }
}

impl Default for NodeId {
    ghost use Rattle.std.specs.Prelude.{◌≡◌};
    ghost use Rattle.syntax_sem.specs.NodeId as id;

    ghost is_default = { λ node. node ≡ id.zero };

    fn default() -> Self {
        Self::DUMMY
    }
}

impl SemanticId for NodeId {
    ghost use Rattle.std.specs.Prelude.{◌≡◌};
    ghost use Rattle.syntax_sem.specs.SemanticId.{cloned_option};
    ghost use Rattle.syntax_sem.specs.NodeId as id;

    ghost zero = { id.zero };

    fn clone_id(&self, with: CloneInSemanticIds) -> Self {
        match with {
            CloneInSemanticIds::With => *self,
            CloneInSemanticIds::Without => NodeId { number: 0 },
        }
    }

    fn clone_cell_option_id(id: Option<Self>, with: CloneInSemanticIds) -> Option<Self>
        ensures { result ≡ cloned_option id with }
    {
        match with {
            CloneInSemanticIds::With => id,
            CloneInSemanticIds::Without => None,
        }
    }
}
