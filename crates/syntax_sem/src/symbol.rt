//! Ids and flags of symbols.

ghost use Rattle.std.specs.Ordering.{nat_cmp};
ghost use Rattle.std.specs.Prelude.{◌≡◌, ⊤};
ghost use Rattle.syntax_sem.specs.Bits.{has_all, has_any};
ghost use Rattle.oxc_str.specs.Equality.{DecidesEquality};
ghost use Rattle.syntax_sem.specs.RedeclarationId as redeclaration;
ghost use Rattle.syntax_sem.specs.SymbolFlags as flags;
ghost use Rattle.syntax_sem.specs.SymbolId as id;

mod redeclaration_id;
mod symbol_id;

use bitflags::{Flag, Flags, bitflag_items};
pub use redeclaration_id::RedeclarationId;
pub use symbol_id::SymbolId;

/// What declares a symbol.
#[derive(Clone, Copy, Debug, PartialEq, Eq)]
pub struct SymbolFlags(u32);

bitflag_items! {
    impl SymbolFlags: u32 {
        /// Nothing is known.
        const NONE = 0;
        /// A `var` or a parameter.
        const FUNCTION_SCOPED_VARIABLE = 1 << 0;
        /// A `let` or a `const`.
        const BLOCK_SCOPED_VARIABLE = 1 << 1;
        /// A `const`.
        const CONST_VARIABLE = 1 << 2;
        /// A class.
        const CLASS = 1 << 3;
        /// The parameter of a catch clause.
        const CATCH_VARIABLE = 1 << 4;
        /// A function, by declaration or expression.
        const FUNCTION = 1 << 5;
        /// A name that an `import` brings.
        const IMPORT = 1 << 6;
        /// A name that an `import type` brings.
        const TYPE_IMPORT = 1 << 7;
        /// A `type` of TypeScript.
        const TYPE_ALIAS = 1 << 8;
        /// An `interface`.
        const INTERFACE = 1 << 9;
        /// An `enum`.
        const REGULAR_ENUM = 1 << 10;
        /// A `const enum`.
        const CONST_ENUM = 1 << 11;
        /// A member of an enum.
        const ENUM_MEMBER = 1 << 12;
        /// A type parameter.
        const TYPE_PARAMETER = 1 << 13;
        /// A TypeScript namespace that holds types alone.
        const NAMESPACE_MODULE = 1 << 14;
        /// A TypeScript namespace that holds values.
        const VALUE_MODULE = 1 << 15;
        /// Declared with the modifier `declare`.
        const AMBIENT = 1 << 16;
        /// The own name of a function expression.
        const FUNCTION_EXPRESSION = 1 << 17;
        /// A function that is async or a generator.
        const ASYNC_OR_GENERATOR_FUNCTION = 1 << 18;
        /// An enum of either kind.
        const ENUM = Self::REGULAR_ENUM.0 | Self::CONST_ENUM.0;
        /// A variable of either scope.
        const VARIABLE = Self::FUNCTION_SCOPED_VARIABLE.0 | Self::BLOCK_SCOPED_VARIABLE.0;
        /// What its block alone sees.
        const BLOCK_SCOPED = Self::BLOCK_SCOPED_VARIABLE.0 | Self::ENUM.0 | Self::CLASS.0;
        /// What is there when the program runs.
        const VALUE = Self::VARIABLE.0
            | Self::CLASS.0
            | Self::FUNCTION.0
            | Self::ENUM.0
            | Self::ENUM_MEMBER.0
            | Self::VALUE_MODULE.0;
        /// What names a type.
        const TYPE = Self::CLASS.0
            | Self::INTERFACE.0
            | Self::ENUM.0
            | Self::ENUM_MEMBER.0
            | Self::TYPE_PARAMETER.0
            | Self::TYPE_ALIAS.0;
        /// What names a namespace.
        const NAMESPACE = Self::VALUE_MODULE.0 | Self::NAMESPACE_MODULE.0 | Self::ENUM.0;
    }
}

impl Flags for SymbolFlags {
    type Bits = u32;

    ghost exact = { ⊤ };

    ghost table = { flags.named };

    ghost set_of = { flags.bits_of };

    fn flags<'a>() -> &'a [Flag<SymbolFlags>] {
        SymbolFlags::FLAGS
    }

    fn bits(&self) -> u32 {
        self.0
    }

    fn from_bits_retain(bits: u32) -> SymbolFlags {
        SymbolFlags(bits)
    }
}

impl SymbolFlags {
    /// What is a type and not a value: classes and enums are both.
    const TYPE_ALONE: Self = SymbolFlags((Self::TYPE_IMPORT.0 | Self::TYPE.0) & !Self::VALUE.0);

    /// What may be there when the program runs.
    const VALUE_OR_IMPORT: Self = SymbolFlags(Self::VALUE.0 | Self::IMPORT.0);

    /// What an `import` brings.
    const ANY_IMPORT: Self = SymbolFlags(Self::IMPORT.0 | Self::TYPE_IMPORT.0);

    /// What a type may name.
    const NAMED_BY_TYPE: Self = SymbolFlags(
        Self::TYPE.0 | Self::TYPE_IMPORT.0 | Self::IMPORT.0 | Self::NAMESPACE.0,
    );

    /// What may stand behind `typeof` in a type.
    const NAMED_BY_VALUE_AS_TYPE: Self = SymbolFlags(
        Self::VALUE.0 | Self::IMPORT.0 | Self::FUNCTION.0 | Self::TYPE_IMPORT.0,
    );

    /// What may stand before the point of a qualified name.
    const NAMED_AS_NAMESPACE: Self = SymbolFlags(
        Self::NAMESPACE.0 | Self::IMPORT.0 | Self::TYPE_IMPORT.0,
    );

    /// Whether it is a variable or a parameter.
    pub fn is_variable(self) -> bool
        ensures { result ≡ has_any (flags.bits_of self) flags.variable }
    {
        self.intersects(Self::VARIABLE)
    }

    /// Whether it is a type parameter.
    pub fn is_type_parameter(self) -> bool
        ensures { result ≡ has_all (flags.bits_of self) flags.type_parameter }
    {
        self.contains(Self::TYPE_PARAMETER)
    }

    /// Whether it is a type and not a value. A class or an enum, which is both, is none here.
    pub fn is_type(self) -> bool
        ensures { result ≡ has_any (flags.bits_of self) flags.type_alone }
    {
        self.intersects(Self::TYPE_ALONE)
    }

    /// Whether it is a value, or an `import` that may bring one.
    pub fn is_value(self) -> bool
        ensures { result ≡ has_any (flags.bits_of self) flags.value_or_import }
    {
        self.intersects(Self::VALUE_OR_IMPORT)
    }

    /// Whether it is a `const`.
    pub fn is_const_variable(self) -> bool
        ensures { result ≡ has_all (flags.bits_of self) flags.const_variable }
    {
        self.contains(Self::CONST_VARIABLE)
    }

    /// Whether it is a function.
    pub fn is_function(self) -> bool
        ensures { result ≡ has_all (flags.bits_of self) flags.function }
    {
        self.contains(Self::FUNCTION)
    }

    /// Whether it is a class.
    pub fn is_class(self) -> bool
        ensures { result ≡ has_all (flags.bits_of self) flags.class }
    {
        self.contains(Self::CLASS)
    }

    /// Whether it is a `let`, a `const`, a class or an enum.
    pub fn is_block_scoped(self) -> bool
        ensures { result ≡ has_any (flags.bits_of self) flags.block_scoped }
    {
        self.intersects(Self::BLOCK_SCOPED)
    }

    /// Whether it is an interface.
    pub fn is_interface(self) -> bool
        ensures { result ≡ has_all (flags.bits_of self) flags.interface }
    {
        self.contains(Self::INTERFACE)
    }

    /// Whether it is a type alias.
    pub fn is_type_alias(self) -> bool
        ensures { result ≡ has_all (flags.bits_of self) flags.type_alias }
    {
        self.contains(Self::TYPE_ALIAS)
    }

    /// Whether it is an enum.
    pub fn is_enum(self) -> bool
        ensures { result ≡ has_any (flags.bits_of self) flags.enum }
    {
        self.intersects(Self::ENUM)
    }

    /// Whether it is a `const enum`.
    pub fn is_const_enum(self) -> bool
        ensures { result ≡ has_all (flags.bits_of self) flags.const_enum }
    {
        self.contains(Self::CONST_ENUM)
    }

    /// Whether it is a member of an enum.
    pub fn is_enum_member(self) -> bool
        ensures { result ≡ has_all (flags.bits_of self) flags.enum_member }
    {
        self.contains(Self::ENUM_MEMBER)
    }

    /// Whether it is the parameter of a catch clause.
    pub fn is_catch_variable(self) -> bool
        ensures { result ≡ has_all (flags.bits_of self) flags.catch_variable }
    {
        self.contains(Self::CATCH_VARIABLE)
    }

    /// Whether it is a `var` or a parameter.
    pub fn is_function_scoped_declaration(self) -> bool
        ensures { result ≡ has_all (flags.bits_of self) flags.function_scoped_variable }
    {
        self.contains(Self::FUNCTION_SCOPED_VARIABLE)
    }

    /// Whether an `import` brings it, of a type too.
    pub fn is_import(self) -> bool
        ensures { result ≡ has_any (flags.bits_of self) flags.any_import }
    {
        self.intersects(Self::ANY_IMPORT)
    }

    /// Whether an `import type` brings it.
    pub fn is_type_import(self) -> bool
        ensures { result ≡ has_all (flags.bits_of self) flags.type_import }
    {
        self.contains(Self::TYPE_IMPORT)
    }

    /// Whether it is declared with the modifier `declare`.
    pub fn is_ambient(self) -> bool
        ensures { result ≡ has_all (flags.bits_of self) flags.ambient }
    {
        self.contains(Self::AMBIENT)
    }

    /// Whether it is a TypeScript namespace that holds types alone.
    pub fn is_namespace_module(self) -> bool
        ensures { result ≡ has_all (flags.bits_of self) flags.namespace_module }
    {
        self.contains(Self::NAMESPACE_MODULE)
    }

    /// Whether it is a TypeScript namespace that holds values.
    pub fn is_value_module(self) -> bool
        ensures { result ≡ has_all (flags.bits_of self) flags.value_module }
    {
        self.contains(Self::VALUE_MODULE)
    }

    /// Whether a type may name it.
    pub fn can_be_referenced_by_type(self) -> bool
        ensures { result ≡ has_any (flags.bits_of self) flags.named_by_type }
    {
        self.intersects(Self::NAMED_BY_TYPE)
    }

    /// Whether an expression may name it.
    pub fn can_be_referenced_by_value(self) -> bool
        ensures { result ≡ has_any (flags.bits_of self) flags.value_or_import }
    {
        self.is_value()
    }

    /// Whether it may stand behind `typeof` in a type.
    pub fn can_be_referenced_by_value_as_type(self) -> bool
        ensures { result ≡ has_any (flags.bits_of self) flags.named_by_value_as_type }
    {
        self.intersects(Self::NAMED_BY_VALUE_AS_TYPE)
    }

    /// Whether it may stand before the point of a qualified name.
    pub fn can_be_referenced_as_namespace(self) -> bool
        ensures { result ≡ has_any (flags.bits_of self) flags.named_as_namespace }
    {
        self.intersects(Self::NAMED_AS_NAMESPACE)
    }
}

/// The law that symbol ids compare as their numbers do.
pub fn symbol_ids_compare_by_number(a: SymbolId, b: SymbolId)
    ensures equal { DecidesEquality ⟦<SymbolId as PartialEq>⟧.eq }
    ensures order { ⟦<SymbolId as Ord>⟧.cmp a b ≡ nat_cmp (id.number_of a) (id.number_of b) }
    ensures known_by_number { id.number_of a ≡ id.number_of b → a ≡ b }
{}

/// The law that redeclaration ids compare as their numbers do.
pub fn redeclaration_ids_compare_by_number(a: RedeclarationId, b: RedeclarationId)
    ensures equal { DecidesEquality ⟦<RedeclarationId as PartialEq>⟧.eq }
    ensures order { ⟦<RedeclarationId as Ord>⟧.cmp a b ≡ nat_cmp (redeclaration.number_of a) (redeclaration.number_of b) }
    ensures known_by_number { redeclaration.number_of a ≡ redeclaration.number_of b → a ≡ b }
{}

/// The law that `==` holds exactly between symbol flags that are the same.
pub fn symbol_flags_are_equal_exactly()
    ensures { DecidesEquality ⟦<SymbolFlags as PartialEq>⟧.eq }
{}
