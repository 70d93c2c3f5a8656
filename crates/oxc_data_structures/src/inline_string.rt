//! Fixed capacity string, stored on the stack.

ghost use Rattle.std.specs.Prelude.{◌≡◌, ℕ, ◌-◌, ◌^◌, ◌<◌, ◌≤◌, ◌++◌, ◌∷◌, ◌↔◌, [], length, slice_set, IsTrue, Some, ⊤};
ghost use Rattle.std.specs.Str.{IsAscii};

use std::alloc::AllocError;
use std::marker::Model;
use std::{fmt, str};

/// A number type that can keep the length of an [`InlineString`].
///
/// An implementation proves that it counts as the whole numbers do up to `MAX_USIZE`:
/// `to_usize` and `from_usize` undo each other, and `ZERO` is 0.
pub trait UnsignedInt: Copy + Eq {
    ghost number: { Self → ℕ };

    ghost of_number: { ℕ → Self };

    ghost ZERO: { Self };

    ghost MAX_USIZE: { ℕ };

    /// Zero.
    const ZERO: Self;

    /// The greatest number of this type, as a `usize`.
    const MAX_USIZE: usize;

    /// The number, as a `usize`.
    fn to_usize(self) -> usize
        ensures number { result ≡ number self }
        ensures in_range { result ≤ MAX_USIZE };

    /// The number of this type that is `n`.
    fn from_usize(n: usize) -> Self
        requires { n ≤ MAX_USIZE }
        ensures { result ≡ of_number n };

    ghost zero_is: { number ZERO ≡ 0 };

    ghost of_number_undoes_number: { (x : Self) → of_number (number x) ≡ x };

    ghost number_undoes_of_number: { (n : ℕ) → n ≤ MAX_USIZE → number (of_number n) ≡ n };
}

impl UnsignedInt for u8 {
    ghost use Rattle.std.specs.Prelude.{refl};

    ghost number = { λ n. n };

    ghost of_number = { λ n. n };

    ghost ZERO = { 0 };

    ghost MAX_USIZE = { 255 };

    ghost zero_is = { refl };

    ghost of_number_undoes_number = { λ _. refl };

    ghost number_undoes_of_number = { λ _ _. refl };

    const ZERO: u8 = 0;

    const MAX_USIZE: usize = u8::MAX as usize;

    fn to_usize(self) -> usize {
        self as usize
    }

    fn from_usize(n: usize) -> u8 {
        n as u8
    }
}

impl UnsignedInt for u16 {
    ghost use Rattle.std.specs.Prelude.{refl};

    ghost number = { λ n. n };

    ghost of_number = { λ n. n };

    ghost ZERO = { 0 };

    ghost MAX_USIZE = { 65535 };

    ghost zero_is = { refl };

    ghost of_number_undoes_number = { λ _. refl };

    ghost number_undoes_of_number = { λ _ _. refl };

    const ZERO: u16 = 0;

    const MAX_USIZE: usize = u16::MAX as usize;

    fn to_usize(self) -> usize {
        self as usize
    }

    fn from_usize(n: usize) -> u16 {
        n as u16
    }
}

impl UnsignedInt for u32 {
    ghost use Rattle.std.specs.Prelude.{refl};

    ghost number = { λ n. n };

    ghost of_number = { λ n. n };

    ghost ZERO = { 0 };

    ghost MAX_USIZE = { 2 ^ 32 - 1 };

    ghost zero_is = { refl };

    ghost of_number_undoes_number = { λ _. refl };

    ghost number_undoes_of_number = { λ _ _. refl };

    const ZERO: u32 = 0;

    const MAX_USIZE: usize = u32::MAX as usize;

    fn to_usize(self) -> usize {
        self as usize
    }

    fn from_usize(n: usize) -> u32 {
        n as u32
    }
}

impl UnsignedInt for u64 {
    ghost use Rattle.std.specs.Prelude.{refl};

    ghost number = { λ n. n };

    ghost of_number = { λ n. n };

    ghost ZERO = { 0 };

    ghost MAX_USIZE = { 2 ^ 64 - 1 };

    ghost zero_is = { refl };

    ghost of_number_undoes_number = { λ _. refl };

    ghost number_undoes_of_number = { λ _ _. refl };

    const ZERO: u64 = 0;

    const MAX_USIZE: usize = u64::MAX as usize;

    fn to_usize(self) -> usize {
        self as usize
    }

    fn from_usize(n: usize) -> u64 {
        n as u64
    }
}

impl UnsignedInt for usize {
    ghost use Rattle.std.specs.Prelude.{refl};

    ghost number = { λ n. n };

    ghost of_number = { λ n. n };

    ghost ZERO = { 0 };

    ghost MAX_USIZE = { 2 ^ 64 - 1 };

    ghost zero_is = { refl };

    ghost of_number_undoes_number = { λ _. refl };

    ghost number_undoes_of_number = { λ _ _. refl };

    const ZERO: usize = 0;

    const MAX_USIZE: usize = usize::MAX;

    fn to_usize(self) -> usize {
        self
    }

    fn from_usize(n: usize) -> usize {
        n
    }
}

/// Short ASCII text that is kept in place, with no allocation.
///
/// `CAPACITY` is the greatest length of the text, and `Len` the type in which its length is kept.
/// `Len` counts up to `CAPACITY` at least.
pub struct InlineString<const CAPACITY: usize, Len: UnsignedInt> {
    /// The text, with zeros behind it.
    bytes: [u8; CAPACITY],
    /// How many of the bytes are the text.
    len: Len,
}

impl<const CAPACITY: usize, Len: UnsignedInt> Model for InlineString<CAPACITY, Len> {
    ghost use Rattle.std.specs.Prelude.{List, ℕ, ◌≡◌, ◌≤◌, ◌++◌, ◌-◌, length, take, replicate};
    ghost use Rattle.oxc_data_structures.specs.InlineString.{IsTextOf, zero_padded, length-front};
    ghost use Rattle.std.proofs.Common.{ap, ◌∙◌};

    ghost Value = { List ℕ };

    ghost view = { λ s. take (Len.number s.len) s.bytes };

    ghost invariant = { λ s. IsTextOf CAPACITY s.bytes (Len.number s.len)
        × (CAPACITY ≤ Len.MAX_USIZE) × (Len.of_number (Len.number s.len) ≡ s.len) };

    ghost inverse = { λ t. record { bytes = t ++ replicate (CAPACITY - length t) 0; len = Len.of_number (length t) } };

    ghost inverse_ok = { λ s h i. record {
      bytes = zero_padded CAPACITY s.bytes (Len.number s.len) h.0 i;
      len = (ap Len.of_number (length-front CAPACITY s.bytes (Len.number s.len) h.0) ∙ h.2) i;
    } };
}

impl<const CAPACITY: usize, Len: UnsignedInt> Clone for InlineString<CAPACITY, Len> {
    ghost is_clone = { λ s r. r ≡ s };

    ghost is_infallible = { λ _. ⊤ };

    fn clone(&self) -> Result<Self, AllocError> {
        Ok(*self)
    }
}

impl<const CAPACITY: usize, Len: UnsignedInt> Copy for InlineString<CAPACITY, Len> {}

impl<const CAPACITY: usize, Len: UnsignedInt> InlineString<CAPACITY, Len> {
    /// The empty text.
    pub fn new() -> Self
        requires { CAPACITY ≤ Len.MAX_USIZE }
        ensures { result ≡ [] }
    {
        InlineString {
            bytes: [0; CAPACITY],
            len: Len::ZERO,
        }
    }

    /// The text `s`.
    pub fn from_str(s: &str) -> Self
        requires counts { CAPACITY ≤ Len.MAX_USIZE }
        requires ascii { IsAscii s.now }
        requires fits { length s.now ≤ CAPACITY }
        ensures { result ≡ s.now }
    {
        let mut bytes = [0; CAPACITY];
        bytes[..s.len()].copy_from_slice(s.as_bytes());
        InlineString {
            bytes,
            len: Len::from_usize(s.len()),
        }
    }

    /// Appends an ASCII byte.
    pub fn push(&mut self, byte: u8)
        requires ascii { byte < 128 }
        requires room { length self.old < CAPACITY }
        ensures { self.new ≡ self.old ++ byte ∷ [] }
    {
        let len = self.len.to_usize();
        self.bytes[len] = byte;
        self.len = Len::from_usize(len + 1);
    }

    /// How many bytes it has, as a `Len`.
    pub fn len(&self) -> Len
        ensures { Len.number result ≡ length self.now }
    {
        self.len
    }

    /// How many bytes it has.
    pub fn len_usize(&self) -> usize
        ensures len { result ≡ length self.now }
        ensures fits { length self.now ≤ CAPACITY }
    {
        self.len.to_usize()
    }

    /// Whether it has no byte.
    pub fn is_empty(&self) -> bool
        ensures { IsTrue result ↔ (self.now ≡ []) }
    {
        self.len.to_usize() == 0
    }

    /// The text.
    pub fn as_str(&self) -> &str
        ensures text { result.now ≡ self.now }
        ensures ascii { IsAscii self.now }
    {
        let text = &self.bytes[..self.len.to_usize()];
        // ASCII is UTF-8.
        unsafe { str::from_utf8_unchecked(text) }
    }

    /// Replaces the byte at `index` by another ASCII byte.
    pub fn set_ascii(&mut self, index: usize, byte: u8)
        requires in_range { index < length self.old }
        requires ascii { byte < 128 }
        ensures { self.new ≡ slice_set self.old index byte }
    {
        self.bytes[index] = byte;
    }
}

impl<const CAPACITY: usize, Len: UnsignedInt> fmt::Display for InlineString<CAPACITY, Len> {
    ghost output = { λ s. Some s };

    fn fmt<W: fmt::Write>(&self, f: &mut fmt::Formatter<W>) -> fmt::Result {
        f.write_str(self.as_str())
    }
}
