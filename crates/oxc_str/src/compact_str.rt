//! A text that owns its bytes.

ghost use Rattle.std.specs.Prelude.{◌≡◌, ◌≤◌, length, nat_eq, refl, string_bytes, IfOk, IsTrue, ◌↔◌, Some};
ghost use Rattle.std.specs.Cmp.{partial_equiv_from_equiv};
ghost use Rattle.std.specs.Cmp.Lexicographic.{nat_list_cmp_total, nat_list_eq_equiv, pointwise, slice_cmp, texts_po, texts_ties};
ghost use Rattle.std.specs.Cmp.Rules.{hashing};
ghost use Rattle.std.specs.Hash as fed;
ghost use Rattle.std.specs.Ordering.{nat_cmp};
ghost use Rattle.std.proofs.Common.{rules};

use std::alloc::{AllocError, Global};
use std::cmp::Ordering;
use std::fmt;
use std::hash::{Hash, Hasher};
use std::marker::Model;

/// The greatest length, in bytes, of a text that [`CompactStr::new_const`] takes.
pub const MAX_INLINE_LEN: usize = 16;

/// A text that owns its bytes, for what outlives the arena that a [`Str`](crate::Str) lives in.
/// It is compared, ordered and hashed as its text.
#[derive(Drop)]
pub struct CompactStr {
    text: String,
}

impl Model for CompactStr {
    ghost use Rattle.std.specs.Prelude.{List, ℕ, string_bytes};

    ghost Value = { List ℕ };

    ghost view = { λ s. string_bytes s.text };
}

impl CompactStr {
    /// A copy of `s`.
    pub fn new(alloc: Global, s: &str) -> Result<Self, AllocError>
        ensures { IfOk result (λ text. text ≡ s.now) }
    {
        Ok(CompactStr {
            text: String::from_str(alloc, s)?,
        })
    }

    /// A copy of a short text, of at most [`MAX_INLINE_LEN`] bytes.
    pub fn new_const(alloc: Global, s: &str) -> Result<Self, AllocError>
        requires { length s.now ≤ MAX_INLINE_LEN }
        ensures { IfOk result (λ text. text ≡ s.now) }
    {
        Self::new(alloc, s)
    }

    /// The text of `s`, which is not copied.
    pub fn from_string(s: String) -> Self
        ensures { result ≡ string_bytes s }
    {
        CompactStr { text: s }
    }

    /// The text.
    pub fn as_str(&self) -> &str
        ensures { result.now ≡ self.now }
    {
        self.text.as_str()
    }

    /// The text as a `String`, which is not copied.
    pub fn into_string(self) -> String
        ensures { string_bytes result ≡ self }
    {
        self.text
    }

    /// How many bytes the text has.
    pub fn len(&self) -> usize
        ensures { result ≡ length self.now }
    {
        self.text.len()
    }

    /// Whether the text is empty.
    pub fn is_empty(&self) -> bool
        ensures { IsTrue result ↔ (length self.now ≡ 0) }
    {
        self.text.is_empty()
    }

    /// A copy of the text.
    pub fn try_clone(&self, alloc: Global) -> Result<Self, AllocError>
        ensures { IfOk result (λ text. text ≡ self.now) }
    {
        Self::new(alloc, self.as_str())
    }
}

impl PartialEq for CompactStr {
    ghost eq = { λ s t. pointwise nat_eq s t };

    ghost laws = { partial_equiv_from_equiv nat_list_eq_equiv };

    fn eq(&self, other: &Self) -> bool {
        self.as_str() == other.as_str()
    }
}

impl Eq for CompactStr {
    ghost laws = { nat_list_eq_equiv };
}

/// By the bytes, so by the code points.
impl PartialOrd for CompactStr {
    ghost partial_cmp = { λ s t. Some (slice_cmp nat_cmp s t) };

    ghost laws = { texts_po };

    fn partial_cmp(&self, other: &Self) -> Option<Ordering> {
        Some(self.cmp(other))
    }
}

impl Ord for CompactStr {
    ghost cmp = { λ s t. slice_cmp nat_cmp s t };

    ghost total = { nat_list_cmp_total };

    ghost matches_partial_cmp = { λ s t. refl };

    ghost matches_eq = { λ s t. texts_ties s t };

    fn cmp(&self, other: &Self) -> Ordering {
        self.as_str().cmp(other.as_str())
    }
}

/// As a `str`.
impl Hash for CompactStr {
    ghost hash_input = { λ s. fed.str s };

    ghost respects_eq = { Prim.search (hashing, rules) };

    fn hash<H: Hasher>(&self, state: &mut H) {
        self.as_str().hash(state);
    }
}

impl fmt::Display for CompactStr {
    ghost output = { λ s. Some s };

    fn fmt<W: fmt::Write>(&self, f: &mut fmt::Formatter<W>) -> fmt::Result {
        f.pad(self.as_str())
    }
}
