//! Ids and flags of scopes.

ghost use Rattle.std.specs.Int.RustNames.{bit_or};
ghost use Rattle.std.specs.Ordering.{nat_cmp};
ghost use Rattle.std.specs.Prelude.{◌==◌, ◌≡◌, ◌||◌, ⊤, if◌then◌else◌};
ghost use Rattle.syntax_sem.specs.Bits.{has_all, has_any};
ghost use Rattle.oxc_str.specs.Equality.{DecidesEquality};
ghost use Rattle.syntax_sem.specs.ScopeFlags as flags;
ghost use Rattle.syntax_sem.specs.ScopeId as id;

mod scope_id;

use bitflags::{Flag, Flags, bitflag_items};
pub use scope_id::ScopeId;

/// What opens a scope, and what is known of the code in it.
#[derive(Clone, Copy, Debug, PartialEq, Eq)]
pub struct ScopeFlags(u16);

bitflag_items! {
    impl ScopeFlags: u16 {
        /// Its code is strict (ECMA-262, 11.2.2).
        const STRICT_MODE = 1 << 0;
        /// The Program.
        const TOP = 1 << 1;
        /// A function, an arrow function too.
        const FUNCTION = 1 << 2;
        /// An arrow function.
        const ARROW = 1 << 3;
        /// A `static` block of a class.
        const CLASS_STATIC_BLOCK = 1 << 4;
        /// A TypeScript namespace.
        const TS_MODULE_BLOCK = 1 << 5;
        /// A constructor of a class.
        const CONSTRUCTOR = 1 << 6;
        /// A getter.
        const GET_ACCESSOR = 1 << 7;
        /// A setter.
        const SET_ACCESSOR = 1 << 8;
        /// A catch clause.
        const CATCH_CLAUSE = 1 << 9;
        /// It holds a direct call of `eval`.
        const DIRECT_EVAL = 1 << 10;
        /// A conditional type of TypeScript.
        const TS_CONDITIONAL = 1 << 11;
        /// A `with` statement.
        const WITH = 1 << 12;
        /// A scope in which a `var` declares.
        const VAR = Self::TOP.0
            | Self::FUNCTION.0
            | Self::CLASS_STATIC_BLOCK.0
            | Self::TS_MODULE_BLOCK.0;
    }
}

impl Flags for ScopeFlags {
    type Bits = u16;

    ghost exact = { ⊤ };

    ghost table = { flags.named };

    ghost set_of = { flags.bits_of };

    fn flags<'a>() -> &'a [Flag<ScopeFlags>] {
        ScopeFlags::FLAGS
    }

    fn bits(&self) -> u16 {
        self.0
    }

    fn from_bits_retain(bits: u16) -> ScopeFlags {
        ScopeFlags(bits)
    }
}

impl ScopeFlags {
    /// The same flags, and `STRICT_MODE` where `yes`.
    pub fn with_strict_mode(self, yes: bool) -> Self
        ensures { flags.bits_of result
            ≡ (if yes then bit_or (flags.bits_of self) flags.strict_mode else flags.bits_of self) }
    {
        if yes {
            self.union(Self::STRICT_MODE)
        } else {
            self
        }
    }

    /// Whether its code is strict.
    pub fn is_strict_mode(self) -> bool
        ensures { result ≡ has_all (flags.bits_of self) flags.strict_mode }
    {
        self.contains(Self::STRICT_MODE)
    }

    /// Whether it is a plain block: whether nothing is known of it but that it may be strict.
    pub fn is_block(self) -> bool
        ensures { result ≡ ((flags.bits_of self == 0) || (flags.bits_of self == flags.strict_mode)) }
    {
        self.is_empty() || self == Self::STRICT_MODE
    }

    /// Whether it is that of the Program.
    pub fn is_top(self) -> bool
        ensures { result ≡ has_all (flags.bits_of self) flags.top }
    {
        self.contains(Self::TOP)
    }

    /// Whether it is that of a function, an arrow function too.
    pub fn is_function(self) -> bool
        ensures { result ≡ has_all (flags.bits_of self) flags.function }
    {
        self.contains(Self::FUNCTION)
    }

    /// Whether it is that of an arrow function.
    pub fn is_arrow(self) -> bool
        ensures { result ≡ has_all (flags.bits_of self) flags.arrow }
    {
        self.contains(Self::ARROW)
    }

    /// Whether it is that of a constructor.
    pub fn is_constructor(self) -> bool
        ensures { result ≡ has_all (flags.bits_of self) flags.constructor }
    {
        self.contains(Self::CONSTRUCTOR)
    }

    /// Whether it is that of a static block of a class.
    pub fn is_class_static_block(self) -> bool
        ensures { result ≡ has_all (flags.bits_of self) flags.class_static_block }
    {
        self.contains(Self::CLASS_STATIC_BLOCK)
    }

    /// Whether it is that of a TypeScript namespace.
    pub fn is_ts_module_block(self) -> bool
        ensures { result ≡ has_all (flags.bits_of self) flags.ts_module_block }
    {
        self.contains(Self::TS_MODULE_BLOCK)
    }

    /// Whether a `var` declares in it.
    pub fn is_var(self) -> bool
        ensures { result ≡ has_any (flags.bits_of self) flags.var }
    {
        self.intersects(Self::VAR)
    }

    /// Whether it is that of a setter.
    pub fn is_set_accessor(self) -> bool
        ensures { result ≡ has_all (flags.bits_of self) flags.set_accessor }
    {
        self.contains(Self::SET_ACCESSOR)
    }

    /// Whether it is that of a setter or a getter.
    pub fn is_set_or_get_accessor(self) -> bool
        ensures { result ≡ has_any (flags.bits_of self) flags.set_or_get_accessor }
    {
        self.intersects(Self::SET_ACCESSOR.union(Self::GET_ACCESSOR))
    }

    /// Whether it is that of a catch clause.
    pub fn is_catch_clause(self) -> bool
        ensures { result ≡ has_all (flags.bits_of self) flags.catch_clause }
    {
        self.contains(Self::CATCH_CLAUSE)
    }

    /// Whether it is that of a TypeScript conditional type.
    pub fn is_ts_conditional(self) -> bool
        ensures { result ≡ has_all (flags.bits_of self) flags.ts_conditional }
    {
        self.contains(Self::TS_CONDITIONAL)
    }

    /// Whether it holds a direct call of `eval`.
    pub fn contains_direct_eval(self) -> bool
        ensures { result ≡ has_all (flags.bits_of self) flags.direct_eval }
    {
        self.contains(Self::DIRECT_EVAL)
    }

    /// Whether it is that of a `with` statement.
    pub fn is_with(self) -> bool
        ensures { result ≡ has_all (flags.bits_of self) flags.with_statement }
    {
        self.contains(Self::WITH)
    }
}

/// The law that scope ids compare as their numbers do.
pub fn scope_ids_compare_by_number(a: ScopeId, b: ScopeId)
    ensures equal { DecidesEquality ⟦<ScopeId as PartialEq>⟧.eq }
    ensures order { ⟦<ScopeId as Ord>⟧.cmp a b ≡ nat_cmp (id.number_of a) (id.number_of b) }
    ensures known_by_number { id.number_of a ≡ id.number_of b → a ≡ b }
{}

/// The law that `==` holds exactly between scope flags that are the same.
pub fn scope_flags_are_equal_exactly()
    ensures { DecidesEquality ⟦<ScopeFlags as PartialEq>⟧.eq }
{}
