//! Ids of classes and of their elements, and kinds of elements.

ghost use Rattle.std.specs.Ordering.{nat_cmp};
ghost use Rattle.std.specs.Prelude.{◌<◌, ◌≡◌, ◌^◌, ⊤};
ghost use Rattle.syntax_sem.specs.Bits.{has_all, has_any};
ghost use Rattle.syntax_sem.specs.ClassId as class;
ghost use Rattle.syntax_sem.specs.ElementId as element;
ghost use Rattle.syntax_sem.specs.ElementKind as kind;
ghost use Rattle.oxc_str.specs.Equality.{DecidesEquality};

use bitflags::{Flag, Flags, bitflag_items};

/// The id of a class: a `u32`.
#[derive(Clone, Copy, Debug, PartialEq, Eq, PartialOrd, Ord, Hash)]
pub struct ClassId(u32);

impl ClassId {
    /// The id with a number.
    pub fn from_usize(n: usize) -> Self
        requires { n < 2 ^ 32 }
        ensures { result ≡ class.id_of n }
    {
        ClassId(n as u32)
    }

    /// Its number.
    pub fn index(self) -> usize
        ensures value { result ≡ class.number_of self }
        ensures below { result < 2 ^ 32 }
    {
        self.0 as usize
    }
}

/// The id of an element of a class: a `u32`.
#[derive(Clone, Copy, Debug, PartialEq, Eq, PartialOrd, Ord, Hash)]
pub struct ElementId(u32);

impl ElementId {
    /// The id with a number.
    pub fn from_usize(n: usize) -> Self
        requires { n < 2 ^ 32 }
        ensures { result ≡ element.id_of n }
    {
        ElementId(n as u32)
    }

    /// Its number.
    pub fn index(self) -> usize
        ensures value { result ≡ element.number_of self }
        ensures below { result < 2 ^ 32 }
    {
        self.0 as usize
    }
}

/// What an element of a class is.
#[derive(Clone, Copy, Debug, PartialEq, Eq, PartialOrd, Ord)]
pub struct ElementKind(u8);

bitflag_items! {
    impl ElementKind: u8 {
        /// A field with the modifier `accessor`.
        const ACCESSOR = 1 << 0;
        /// A method.
        const METHOD = 1 << 1;
        /// A field.
        const PROPERTY = 1 << 2;
        /// A setter.
        const SETTER = 1 << 3;
        /// A getter.
        const GETTER = 1 << 4;
    }
}

impl Flags for ElementKind {
    type Bits = u8;

    ghost exact = { ⊤ };

    ghost table = { kind.named };

    ghost set_of = { kind.bits_of };

    fn flags<'a>() -> &'a [Flag<ElementKind>] {
        ElementKind::FLAGS
    }

    fn bits(&self) -> u8 {
        self.0
    }

    fn from_bits_retain(bits: u8) -> ElementKind {
        ElementKind(bits)
    }
}

impl ElementKind {
    /// Whether it is a property.
    pub fn is_property(self) -> bool
        ensures { result ≡ has_all (kind.bits_of self) kind.property }
    {
        self.contains(Self::PROPERTY)
    }

    /// Whether it is a method.
    pub fn is_method(self) -> bool
        ensures { result ≡ has_all (kind.bits_of self) kind.method }
    {
        self.contains(Self::METHOD)
    }

    /// Whether it is an accessor.
    pub fn is_accessor(self) -> bool
        ensures { result ≡ has_all (kind.bits_of self) kind.accessor }
    {
        self.contains(Self::ACCESSOR)
    }

    /// Whether it is a setter or a getter.
    pub fn is_setter_or_getter(self) -> bool
        ensures { result ≡ has_any (kind.bits_of self) kind.setter_or_getter }
    {
        self.intersects(Self::SETTER.union(Self::GETTER))
    }
}

/// The law that class ids compare as their numbers do.
pub fn class_ids_compare_by_number(a: ClassId, b: ClassId)
    ensures equal { DecidesEquality ⟦<ClassId as PartialEq>⟧.eq }
    ensures order { ⟦<ClassId as Ord>⟧.cmp a b ≡ nat_cmp (class.number_of a) (class.number_of b) }
{}

/// The law that element ids compare as their numbers do.
pub fn element_ids_compare_by_number(a: ElementId, b: ElementId)
    ensures equal { DecidesEquality ⟦<ElementId as PartialEq>⟧.eq }
    ensures order { ⟦<ElementId as Ord>⟧.cmp a b ≡ nat_cmp (element.number_of a) (element.number_of b) }
{}

/// The law that element kinds compare as their bits do.
pub fn element_kinds_compare_by_bits(a: ElementKind, b: ElementKind)
    ensures equal { DecidesEquality ⟦<ElementKind as PartialEq>⟧.eq }
    ensures order { ⟦<ElementKind as Ord>⟧.cmp a b ≡ nat_cmp (kind.bits_of a) (kind.bits_of b) }
{}
