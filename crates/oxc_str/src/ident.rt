//! Identifiers: a text with a stored hash.

ghost use Rattle.std.specs.Cmp.Rules.{hashing};
ghost use Rattle.std.specs.Cow.{cow_str_bytes, IsBorrowedStr};
ghost use Rattle.std.specs.Prelude.{◌≡◌, ◌++◌, ◌∷◌, [], string_bytes, IfOk, IsOk, Some};
ghost use Rattle.std.proofs.Common.{rules};
ghost use Rattle.json_text.specs.Json.{string};
ghost use Rattle.json_text.specs.Units.{units_of};
ghost use Rattle.oxc_estree.specs.Out.{plain};
ghost use Rattle.oxc_str.specs.Borrowed.{IsWhatItBorrows};
ghost use Rattle.oxc_str.specs.Ident.{ident_text, ident_text_at, stored_hash, IsHashed, IsUnhashed};
ghost use Rattle.oxc_str.specs.JSStr.{js_bytes};
ghost use Rattle.oxc_str.specs.Str.{text_of};

use crate::{CompactStr, IdentBuildHasher, JSStr, Str, ident_hash};
use arena_core::{alloc_str, concat_strs};
use bumpalo::Bump;
use oxc_estree::{ESTree, JsonSafeString, Serializer};
use std::alloc::{AllocError, Global};
use std::borrow::CowStr;
use std::collections::{HashMap, HashSet};
use std::fmt;
use std::hash::{Hash, Hasher};

/// An identifier: a text that lives elsewhere, with a stored hash. Two are equal where both text and
/// stored hash are.
#[derive(Clone, Copy, Debug, PartialEq, Eq)]
pub struct Ident<'a> {
    text: &'a str,
    hash: u32,
}

/// The identifier of the text `s`, which is not copied, with its hash.
pub fn new_const_ident<'a>(s: &'a str) -> Ident<'a>
    ensures text { ident_text result ≡ s.now }
    ensures not_copied { ident_text_at result ≡ s.entry }
    ensures hashed { IsHashed result }
{
    Ident {
        text: s,
        hash: ident_hash(s.as_bytes()),
    }
}

impl<'a> Ident<'a> {
    /// The identifier of the text `s`, which is not copied, with the stored hash 0. It equals one with
    /// its hash only where that hash is 0.
    pub fn new_unhashed(s: &'a str) -> Self
        ensures text { ident_text result ≡ s.now }
        ensures not_copied { ident_text_at result ≡ s.entry }
        ensures unhashed { IsUnhashed result }
    {
        Ident { text: s, hash: 0 }
    }

    /// The identifier of the empty text, with its hash.
    pub fn empty() -> Self
        ensures text { ident_text result ≡ [] }
        ensures hashed { IsHashed result }
    {
        new_const_ident("")
    }

    /// The identifier of a copy of `s` in the arena, with its hash.
    pub fn from_str_in(arena: &'a Bump, s: &str) -> Result<Self, AllocError>
        ensures { IfOk result (λ copy. (ident_text copy ≡ s.now) × IsHashed copy) }
    {
        Ok(new_const_ident(alloc_str(arena, s)?))
    }

    /// The identifier of `a` followed by `b`, in the arena, with its hash.
    pub fn from_strs2_in(arena: &'a Bump, a: &str, b: &str) -> Result<Self, AllocError>
        ensures { IfOk result (λ both. (ident_text both ≡ a.now ++ b.now) × IsHashed both) }
    {
        Ok(new_const_ident(concat_strs(arena, a, b)?))
    }

    /// The identifier of the text of `value`, with its hash. Only an owned text is copied into the
    /// arena: a borrowed one is answered with where it lies, and never refused.
    pub fn from_cow_in(arena: &'a Bump, value: &CowStr<'a>) -> Result<Self, AllocError>
        ensures text { IfOk result (λ text. (ident_text text ≡ cow_str_bytes value.now) × IsHashed text) }
        ensures borrowed { IsBorrowedStr value.now → IsOk result }
        ensures not_copied { IfOk result (λ text. IsWhatItBorrows value.now (ident_text_at text)) }
    {
        match value {
            CowStr::Borrowed(s) => Ok(new_const_ident(*s)),
            CowStr::Owned(s) => Ident::from_str_in(arena, s.as_str()),
        }
    }

    /// The text.
    pub fn as_str(&self) -> &'a str
        ensures { result.now ≡ ident_text self.now }
    {
        self.text
    }

    /// The text.
    pub fn as_arena_str(&self) -> Str<'a>
        ensures { text_of result ≡ ident_text self.now }
    {
        Str::new_const(self.text)
    }

    /// The text as a JavaScript string.
    pub fn as_js_str(&self) -> JSStr<'a>
        ensures { js_bytes result ≡ ident_text self.now }
    {
        JSStr::from_str(self.text)
    }

    /// A copy of the text.
    pub fn into_string(self, alloc: Global) -> Result<String, AllocError>
        ensures { IfOk result (λ copy. string_bytes copy ≡ ident_text self.entry) }
    {
        String::from_str(alloc, self.text)
    }

    /// A copy of the text.
    pub fn into_compact_str(self, alloc: Global) -> Result<CompactStr, AllocError>
        ensures { IfOk result (λ copy. copy ≡ ident_text self.entry) }
    {
        CompactStr::new(alloc, self.text)
    }

    /// A copy of the text.
    pub fn to_compact_str(self, alloc: Global) -> Result<CompactStr, AllocError>
        ensures { IfOk result (λ copy. copy ≡ ident_text self.entry) }
    {
        self.into_compact_str(alloc)
    }
}

/// One write of the text's bytes, whatever the stored hash.
impl<'a> Hash for Ident<'a> {
    ghost hash_input = { λ i. ident_text i ∷ [] };

    ghost respects_eq = { Prim.search (hashing, rules) };

    fn hash<H: Hasher>(&self, state: &mut H) {
        state.write(self.text.as_bytes());
    }
}

/// The text.
impl<'a> fmt::Display for Ident<'a> {
    ghost output = { λ i. Some (ident_text i) };

    fn fmt<W: fmt::Write>(&self, f: &mut fmt::Formatter<W>) -> fmt::Result {
        f.pad(self.text)
    }
}

/// A JSON string.
impl<'a> ESTree for Ident<'a> {
    ghost meaning = { λ i _. plain (string (units_of (ident_text i))) };

    fn serialize<S: Serializer>(&self, serializer: &mut S) -> Result<(), AllocError> {
        JsonSafeString(self.text).serialize(serializer)
    }
}

/// A map from identifiers.
pub type IdentHashMap<'a, V> = HashMap<Ident<'a>, V, IdentBuildHasher>;

/// A set of identifiers.
pub type IdentHashSet<'a> = HashSet<Ident<'a>, IdentBuildHasher>;

/// A map from identifiers in an arena.
pub type ArenaIdentHashMap<'a, V> = HashMap<Ident<'a>, V, IdentBuildHasher, &'a Bump>;

/// A set of identifiers in an arena.
pub type ArenaIdentHashSet<'a> = HashSet<Ident<'a>, IdentBuildHasher, &'a Bump>;
