//! JavaScript strings.

ghost use Rattle.std.specs.Cmp.Lexicographic.{nat_list_eq_equiv, pointwise};
ghost use Rattle.std.specs.Cmp.{on_equiv, on_per, partial_equiv_from_equiv};
ghost use Rattle.std.specs.Cmp.Rules.{hashing};
ghost use Rattle.std.specs.Cow.{cow_str_bytes, IsBorrowedStr};
ghost use Rattle.std.specs.Prelude.{◌≡◌, ◌↔◌, ◌++◌, [], length, nat_eq, true, false, IfOk, IfSome, IsNone, IsOk, IsTrue, ⊤};
ghost use Rattle.std.specs.Str.{chars};
ghost use Rattle.std.proofs.Common.{rules};
ghost use Rattle.json_text.specs.Units.{units_of};
ghost use Rattle.oxc_str.specs.Str.{text_of};
ghost use Rattle.oxc_str.specs.Wtf8.{has_lone_surrogate, has_lone_surrogate as lone_surrogate_in, IsWtf8};

use crate::{EncodeUtf16, JSChars, JSStrBuilder, Str};
use arena_core::alloc_str;
use bumpalo::Bump;
use std::alloc::AllocError;
use std::borrow::CowStr;
use std::hash::{Hash, Hasher};
use std::str;

/// A JavaScript string that lives elsewhere, as in source text or in an arena: a list of UTF-16 code
/// units, of which a surrogate may stand alone.
///
/// It is kept as canonical [WTF-8](https://wtf-8.codeberg.page/), which is UTF-8 where no surrogate
/// stands alone, with a flag that says whether one does.
pub struct JSStr<'a> {
    bytes: &'a [u8],
    has_lone: bool,
    ghost canonical: { IsWtf8 bytes.now },
    ghost flag: { has_lone ≡ has_lone_surrogate (units_of bytes.now) },
}

impl<'a> Clone for JSStr<'a> {
    ghost is_clone = { λ s r. r ≡ s };

    ghost is_infallible = { λ _. ⊤ };

    fn clone(&self) -> Result<Self, AllocError> {
        Ok(*self)
    }
}

impl<'a> Copy for JSStr<'a> {}

impl<'a> JSStr<'a> {
    ghost use Rattle.oxc_str.specs.JSStr.{js_bytes, js_units};

    /// The empty string.
    pub fn empty() -> Self
        ensures { js_units result ≡ [] }
    {
        JSStr::from_str("")
    }

    /// The string of the characters of `value`, which is not copied.
    pub fn from_str(value: &'a str) -> Self
        ensures bytes { js_bytes result ≡ value.now }
        ensures flag { has_lone_surrogate (js_units result) ≡ false }
    {
        JSStr {
            bytes: value.as_bytes(),
            has_lone: false,
        }
    }

    /// The string of the characters of a copy of `s` in the arena.
    pub fn from_str_in(arena: &'a Bump, s: &str) -> Result<Self, AllocError>
        ensures { IfOk result (λ copy. js_bytes copy ≡ s.now) }
    {
        Ok(JSStr::from_str(alloc_str(arena, s)?))
    }

    /// The string of the characters of `value`. Only an owned text is copied into the arena: a borrowed
    /// one is never refused.
    pub fn from_cow_in(arena: &'a Bump, value: &CowStr<'a>) -> Result<Self, AllocError>
        ensures text { IfOk result (λ text. js_bytes text ≡ cow_str_bytes value.now) }
        ensures borrowed { IsBorrowedStr value.now → IsOk result }
    {
        match value {
            CowStr::Borrowed(s) => Ok(JSStr::from_str(*s)),
            CowStr::Owned(s) => JSStr::from_str_in(arena, s.as_str()),
        }
    }

    /// `a` followed by `b`, in the arena. A lead surrogate at the end of `a` pairs with a trail at the
    /// front of `b`.
    pub fn from_js_strs2_in(arena: &'a Bump, a: JSStr<'_>, b: JSStr<'_>) -> Result<Self, AllocError>
        ensures { IfOk result (λ both. js_units both ≡ js_units a.entry ++ js_units b.entry) }
    {
        let mut builder = JSStrBuilder::with_capacity_in(arena, a.len().saturating_add(b.len()))?;
        builder.push_js_str(a)?;
        builder.push_js_str(b)?;
        builder.into_js_str()
    }

    /// The string of these bytes, which are canonical WTF-8, with the flag that says whether a
    /// surrogate stands alone in them.
    pub fn from_bytes_unchecked(bytes: &'a [u8], has_lone_surrogate: bool) -> Self
        requires canonical { IsWtf8 bytes.now }
        requires flag { has_lone_surrogate ≡ lone_surrogate_in (units_of bytes.now) }
        ensures { js_bytes result ≡ bytes.now }
    {
        JSStr {
            bytes,
            has_lone: has_lone_surrogate,
        }
    }

    /// The string as UTF-8, or `None` where a surrogate stands alone in it.
    pub fn as_str(self) -> Option<&'a str>
        ensures none { IsNone result ↔ (has_lone_surrogate (js_units self.entry) ≡ true) }
        ensures text { IfSome result (λ text. text.now ≡ js_bytes self.entry) }
    {
        if self.has_lone {
            None
        } else {
            // Without a lone surrogate WTF-8 is UTF-8.
            Some(unsafe { str::from_utf8_unchecked(self.bytes) })
        }
    }

    /// The string as a text, or `None` where a surrogate stands alone in it.
    pub fn as_arena_str(self) -> Option<Str<'a>>
        ensures none { IsNone result ↔ (has_lone_surrogate (js_units self.entry) ≡ true) }
        ensures text { IfSome result (λ text. text_of text ≡ js_bytes self.entry) }
    {
        match self.as_str() {
            Some(text) => Some(Str::new_const(text)),
            None => None,
        }
    }

    /// How many bytes it has. [`len_utf16`](Self::len_utf16) is JavaScript's length.
    pub fn len(self) -> usize
        ensures { result ≡ length (js_bytes self.entry) }
    {
        self.bytes.len()
    }

    /// Whether it has no code units.
    pub fn is_empty(self) -> bool
        ensures { IsTrue result ↔ (js_units self.entry ≡ []) }
    {
        self.bytes.is_empty()
    }

    /// Whether a surrogate stands alone in it.
    pub fn has_lone_surrogate(self) -> bool
        ensures { result ≡ has_lone_surrogate (js_units self.entry) }
    {
        self.has_lone
    }

    /// Its bytes in canonical WTF-8.
    pub fn as_bytes(self) -> &'a [u8]
        ensures bytes { result.now ≡ js_bytes self.entry }
        ensures canonical { IsWtf8 result.now }
    {
        self.bytes
    }

    /// Its code points.
    pub fn chars(self) -> JSChars<'a>
        ensures { result ≡ chars (js_bytes self.entry) }
    {
        JSChars::of_wtf8(self.bytes)
    }

    /// Its code units.
    pub fn encode_utf16(self) -> EncodeUtf16<'a>
        ensures { result ≡ js_units self.entry }
    {
        EncodeUtf16::of_chars(self.chars())
    }

    /// How many code units it has, which is JavaScript's length.
    pub fn len_utf16(self) -> usize
        ensures { result ≡ length (js_units self.entry) }
    {
        let mut len = 0;
        let mut chars = self.chars();
        while let Some(c) = chars.next() {
            len += c.len_utf16();
        }
        len
    }
}

/// By the bytes, so by the code units.
impl<'a> PartialEq for JSStr<'a> {
    ghost eq = { λ s t. pointwise nat_eq s.bytes.now t.bytes.now };

    ghost laws = { on_per (λ s. s.bytes.now) (partial_equiv_from_equiv nat_list_eq_equiv) };

    fn eq(&self, other: &Self) -> bool {
        self.bytes == other.bytes
    }
}

impl<'a> Eq for JSStr<'a> {
    ghost laws = { on_equiv (λ s. s.bytes.now) nat_list_eq_equiv };
}

/// As a `str`, where no surrogate stands alone.
impl<'a> Hash for JSStr<'a> {
    ghost use Rattle.oxc_str.specs.JSStr.{hash_writes};

    ghost hash_input = { λ s. hash_writes s.bytes.now };

    ghost respects_eq = { Prim.search (hashing, rules) };

    fn hash<H: Hasher>(&self, state: &mut H) {
        match self.as_str() {
            Some(text) => text.hash(state),
            None => self.bytes.hash(state),
        }
    }
}
