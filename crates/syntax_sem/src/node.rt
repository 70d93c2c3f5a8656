//! Ids and flags of nodes.

ghost use Rattle.std.specs.Ordering.{nat_cmp};
ghost use Rattle.std.specs.Prelude.{◌≡◌, ⊤};
ghost use Rattle.syntax_sem.specs.Bits.{has_all};
ghost use Rattle.oxc_str.specs.Equality.{DecidesEquality};
ghost use Rattle.syntax_sem.specs.NodeFlags as flags;
ghost use Rattle.syntax_sem.specs.NodeId as id;

mod node_id;

use bitflags::{Flag, Flags, bitflag_items};
pub use node_id::NodeId;

/// What has the id of a node.
pub trait GetNodeId {
    ghost use Rattle.syntax_sem.specs.declared.node.node_id.NodeId.{NodeId};

    ghost node_of: { Self → NodeId };

    /// The id of its node.
    fn node_id(&self) -> NodeId
        ensures { result ≡ node_of self.now };
}

/// What is known of a node.
#[derive(Clone, Copy, Debug, PartialEq, Eq, PartialOrd, Ord, Hash)]
pub struct NodeFlags(u8);

bitflag_items! {
    impl NodeFlags: u8 {
        /// A JSDoc comment stands before it.
        const JSDOC = 1 << 0;
    }
}

impl Flags for NodeFlags {
    type Bits = u8;

    ghost exact = { ⊤ };

    ghost table = { flags.named };

    ghost set_of = { flags.bits_of };

    fn flags<'a>() -> &'a [Flag<NodeFlags>] {
        NodeFlags::FLAGS
    }

    fn bits(&self) -> u8 {
        self.0
    }

    fn from_bits_retain(bits: u8) -> NodeFlags {
        NodeFlags(bits)
    }
}

impl NodeFlags {
    /// Whether a JSDoc comment stands before it.
    pub fn has_jsdoc(self) -> bool
        ensures { result ≡ has_all (flags.bits_of self) flags.jsdoc }
    {
        self.contains(Self::JSDOC)
    }
}

/// The law that node ids compare as their numbers do and are known by them, and that the default is 0.
pub fn node_ids_compare_by_number(a: NodeId, b: NodeId)
    ensures equal { DecidesEquality ⟦<NodeId as PartialEq>⟧.eq }
    ensures order { ⟦<NodeId as Ord>⟧.cmp a b ≡ nat_cmp (id.number_of a) (id.number_of b) }
    ensures known_by_number { id.number_of a ≡ id.number_of b → a ≡ b }
    ensures zero_by_default { ⟦<NodeId as Default>⟧.is_default a → a ≡ id.zero }
{}

/// The law that node flags compare as their bits do.
pub fn node_flags_compare_by_bits(a: NodeFlags, b: NodeFlags)
    ensures equal { DecidesEquality ⟦<NodeFlags as PartialEq>⟧.eq }
    ensures order { ⟦<NodeFlags as Ord>⟧.cmp a b ≡ nat_cmp (flags.bits_of a) (flags.bits_of b) }
{}
