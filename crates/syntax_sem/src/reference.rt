//! References, and what they do with their bindings.

ghost use Rattle.std.specs.Borrow.{sem};
ghost use Rattle.std.specs.Ordering.{nat_cmp};
ghost use Rattle.std.specs.Prelude.{◌==◌, ◌&&◌, ◌≡◌, ⊤, None, Some, not};
ghost use Rattle.syntax_sem.specs.Bits.{has_all, has_any};
ghost use Rattle.oxc_str.specs.Equality.{DecidesEquality};
ghost use Rattle.syntax_sem.specs.ReferenceFlags as flags;
ghost use Rattle.syntax_sem.specs.ReferenceId as id;

mod reference_id;

use crate::node::NodeId;
use crate::scope::ScopeId;
use crate::symbol::SymbolId;
use bitflags::{Flag, Flags, bitflag_items};
pub use reference_id::ReferenceId;

/// What a reference does with its binding.
#[derive(Clone, Copy, Debug, PartialEq, Eq)]
pub struct ReferenceFlags(u8);

bitflag_items! {
    impl ReferenceFlags: u8 {
        /// It reads.
        const READ = 1 << 0;
        /// It writes.
        const WRITE = 1 << 1;
        /// It stands in a type.
        const TYPE = 1 << 2;
        /// It stands behind `typeof` in a type.
        const VALUE_AS_TYPE = 1 << 3;
        /// It stands before the point of a qualified name.
        const NAMESPACE = 1 << 4;
        /// It is the object of a member that is written to.
        const MEMBER_WRITE_TARGET = 1 << 5;
        /// Nothing is known.
        const NONE = 0;
        /// A use as a value.
        const VALUE = Self::READ.0 | Self::WRITE.0;
    }
}

impl Flags for ReferenceFlags {
    type Bits = u8;

    ghost exact = { ⊤ };

    ghost table = { flags.named };

    ghost set_of = { flags.bits_of };

    fn flags<'a>() -> &'a [Flag<ReferenceFlags>] {
        ReferenceFlags::FLAGS
    }

    fn bits(&self) -> u8 {
        self.0
    }

    fn from_bits_retain(bits: u8) -> ReferenceFlags {
        ReferenceFlags(bits)
    }
}

impl Default for ReferenceFlags {
    ghost is_default = { λ set. flags.bits_of set ≡ flags.none };

    fn default() -> Self {
        Self::NONE
    }
}

impl ReferenceFlags {
    /// A read.
    pub fn read() -> Self
        ensures { flags.bits_of result ≡ flags.read }
    {
        Self::READ
    }

    /// A write.
    pub fn write() -> Self
        ensures { flags.bits_of result ≡ flags.write }
    {
        Self::WRITE
    }

    /// A read and a write.
    pub fn read_write() -> Self
        ensures { flags.bits_of result ≡ flags.value }
    {
        Self::VALUE
    }

    /// Whether it reads.
    pub fn is_read(self) -> bool
        ensures { result ≡ has_all (flags.bits_of self) flags.read }
    {
        self.contains(Self::READ)
    }

    /// Whether it doesn't write.
    pub fn is_read_only(self) -> bool
        ensures { result ≡ not (has_all (flags.bits_of self) flags.write) }
    {
        !self.contains(Self::WRITE)
    }

    /// Whether it writes.
    pub fn is_write(self) -> bool
        ensures { result ≡ has_all (flags.bits_of self) flags.write }
    {
        self.contains(Self::WRITE)
    }

    /// Whether it writes and doesn't read.
    pub fn is_write_only(self) -> bool
        ensures { result
            ≡ (has_all (flags.bits_of self) flags.write
            && not (has_all (flags.bits_of self) flags.read)) }
    {
        self.contains(Self::WRITE) && !self.contains(Self::READ)
    }

    /// Whether it reads and writes.
    pub fn is_read_write(self) -> bool
        ensures { result ≡ has_all (flags.bits_of self) flags.value }
    {
        self.contains(Self::VALUE)
    }

    /// Whether it reads or writes.
    pub fn is_value(self) -> bool
        ensures { result ≡ has_any (flags.bits_of self) flags.value }
    {
        self.intersects(Self::VALUE)
    }

    /// Whether it stands in a type.
    pub fn is_type(self) -> bool
        ensures { result ≡ has_all (flags.bits_of self) flags.type }
    {
        self.contains(Self::TYPE)
    }

    /// Whether it stands in a type, and nothing else is known of it.
    pub fn is_type_only(self) -> bool
        ensures { result ≡ (flags.bits_of self == flags.type) }
    {
        self == Self::TYPE
    }

    /// Whether it stands behind `typeof` in a type.
    pub fn is_value_as_type(self) -> bool
        ensures { result ≡ has_all (flags.bits_of self) flags.value_as_type }
    {
        self.contains(Self::VALUE_AS_TYPE)
    }

    /// Whether it stands before the point of a qualified name.
    pub fn is_namespace(self) -> bool
        ensures { result ≡ has_all (flags.bits_of self) flags.namespace }
    {
        self.contains(Self::NAMESPACE)
    }

    /// Whether it is the object of a member that is written to.
    pub fn is_member_write_target(self) -> bool
        ensures { result ≡ has_all (flags.bits_of self) flags.member_write_target }
    {
        self.contains(Self::MEMBER_WRITE_TARGET)
    }
}

/// A use of a name: at which node, in which scope, with which flags, and of which symbol, where that is
/// known.
#[derive(Clone, Debug, Drop)]
pub struct Reference {
    node_id: NodeId,
    symbol_id: Option<SymbolId>,
    scope_id: ScopeId,
    flags: ReferenceFlags,
}

impl Reference {
    ghost use Rattle.std.specs.Borrow.{sem};
    ghost use Rattle.std.specs.Prelude.{◌≡◌, None, Some};
    ghost use Rattle.syntax_sem.specs.Bits.{has_all, has_any};
    ghost use Rattle.syntax_sem.specs.Reference as spec;
    ghost use Rattle.syntax_sem.specs.ReferenceFlags as flags;

    /// A reference to no symbol yet.
    pub fn new(node_id: NodeId, scope_id: ScopeId, flags: ReferenceFlags) -> Self
        ensures { result ≡ spec.reference_of node_id None scope_id flags }
    {
        Reference {
            node_id,
            symbol_id: None,
            scope_id,
            flags,
        }
    }

    /// A reference to a symbol.
    pub fn new_with_symbol_id(
        node_id: NodeId,
        symbol_id: SymbolId,
        scope_id: ScopeId,
        flags: ReferenceFlags,
    ) -> Self
        ensures { result ≡ spec.reference_of node_id (Some symbol_id) scope_id flags }
    {
        Reference {
            node_id,
            symbol_id: Some(symbol_id),
            scope_id,
            flags,
        }
    }

    /// The node at which it stands.
    pub fn node_id(&self) -> NodeId
        ensures { result ≡ spec.node_of self.now }
    {
        self.node_id
    }

    /// The symbol to which it refers; `None` where none was given.
    pub fn symbol_id(&self) -> Option<SymbolId>
        ensures { result ≡ spec.symbol_of self.now }
    {
        self.symbol_id
    }

    /// Lets it refer to a symbol.
    pub fn set_symbol_id(&mut self, symbol_id: SymbolId)
        ensures { self.new ≡ spec.to_symbol self.old symbol_id }
    {
        self.symbol_id = Some(symbol_id);
    }

    /// The scope in which it stands.
    pub fn scope_id(&self) -> ScopeId
        ensures { result ≡ spec.scope_of self.now }
    {
        self.scope_id
    }

    /// What it does with its binding.
    pub fn flags(&self) -> ReferenceFlags
        ensures { result ≡ spec.flags_of self.now }
    {
        self.flags
    }

    /// What it does with its binding, to be changed.
    pub fn flags_mut(&mut self) -> &mut ReferenceFlags
        ensures* writes_back { sem 𝓛 (spec.LendsFlags self.entry result) }
        ensures value { result.now ≡ spec.flags_of self.old }
    {
        &mut self.flags
    }

    /// Whether it reads.
    pub fn is_read(&self) -> bool
        ensures { result ≡ has_all (flags.bits_of (spec.flags_of self.now)) flags.read }
    {
        self.flags.is_read()
    }

    /// Whether it writes.
    pub fn is_write(&self) -> bool
        ensures { result ≡ has_all (flags.bits_of (spec.flags_of self.now)) flags.write }
    {
        self.flags.is_write()
    }

    /// Whether it reads or writes.
    pub fn is_value(&self) -> bool
        ensures { result ≡ has_any (flags.bits_of (spec.flags_of self.now)) flags.value }
    {
        self.flags.is_value()
    }

    /// Whether it stands in a type.
    pub fn is_type(&self) -> bool
        ensures { result ≡ has_all (flags.bits_of (spec.flags_of self.now)) flags.type }
    {
        self.flags.is_type()
    }
}

/// The law that reference ids compare as their numbers do.
pub fn reference_ids_compare_by_number(a: ReferenceId, b: ReferenceId)
    ensures equal { DecidesEquality ⟦<ReferenceId as PartialEq>⟧.eq }
    ensures order { ⟦<ReferenceId as Ord>⟧.cmp a b ≡ nat_cmp (id.number_of a) (id.number_of b) }
    ensures known_by_number { id.number_of a ≡ id.number_of b → a ≡ b }
{}

/// The law that `==` holds exactly between reference flags that are the same, and that none is set by
/// default.
pub fn reference_flags_are_equal_exactly(set: ReferenceFlags)
    ensures equal { DecidesEquality ⟦<ReferenceFlags as PartialEq>⟧.eq }
    ensures none_by_default { ⟦<ReferenceFlags as Default>⟧.is_default set → flags.bits_of set ≡ flags.none }
{}
