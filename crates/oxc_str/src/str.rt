//! A text that lives elsewhere, as in source text or in an arena.

ghost use Rattle.std.specs.Cow.{cow_str_bytes, IsBorrowedStr};
ghost use Rattle.std.specs.Prelude.{◌≡◌, ◌++◌, [], string_bytes, IfOk, IsOk, Some};
ghost use Rattle.json_text.specs.Json.{string};
ghost use Rattle.json_text.specs.Units.{units_of};
ghost use Rattle.oxc_estree.specs.Out.{plain};
ghost use Rattle.oxc_str.specs.Borrowed.{IsWhatItBorrows};
ghost use Rattle.oxc_str.specs.Str.{text_at, text_of};

use crate::CompactStr;
use arena_core::{alloc_str, concat_strs};
use bumpalo::Bump;
use oxc_estree::{ESTree, JsonStr, Serializer};
use std::alloc::{AllocError, Global};
use std::borrow::CowStr;
use std::fmt;

/// A text that lives elsewhere. Two are equal where their texts are.
#[derive(Clone, Copy, Debug, PartialEq, Eq, Hash)]
pub struct Str<'a> {
    text: &'a str,
}

/// A [`Str`] whose text lives in an arena.
pub type ArenaStr<'a> = Str<'a>;

impl<'a> Str<'a> {
    /// The text of `s`, which is not copied.
    pub fn new_const(s: &'a str) -> Self
        ensures text { text_of result ≡ s.now }
        ensures not_copied { text_at result ≡ s.entry }
    {
        Str { text: s }
    }

    /// The empty text.
    pub fn empty() -> Self
        ensures { text_of result ≡ [] }
    {
        Str { text: "" }
    }

    /// A copy of `s` in the arena.
    pub fn from_str_in(arena: &'a Bump, s: &str) -> Result<Self, AllocError>
        ensures { IfOk result (λ copy. text_of copy ≡ s.now) }
    {
        Ok(Str {
            text: alloc_str(arena, s)?,
        })
    }

    /// `a` followed by `b`, in the arena.
    pub fn from_strs2_in(arena: &'a Bump, a: &str, b: &str) -> Result<Self, AllocError>
        ensures { IfOk result (λ both. text_of both ≡ a.now ++ b.now) }
    {
        Ok(Str {
            text: concat_strs(arena, a, b)?,
        })
    }

    /// The text of `value`. Only an owned text is copied into the arena: a borrowed one is answered with
    /// where it lies, and never refused.
    pub fn from_cow_in(arena: &'a Bump, value: &CowStr<'a>) -> Result<Self, AllocError>
        ensures text { IfOk result (λ text. text_of text ≡ cow_str_bytes value.now) }
        ensures borrowed { IsBorrowedStr value.now → IsOk result }
        ensures not_copied { IfOk result (λ text. IsWhatItBorrows value.now (text_at text)) }
    {
        match value {
            CowStr::Borrowed(s) => Ok(Str { text: *s }),
            CowStr::Owned(s) => Str::from_str_in(arena, s.as_str()),
        }
    }

    /// The text.
    pub fn as_str(&self) -> &'a str
        ensures { result.now ≡ text_of self.now }
    {
        self.text
    }

    /// A copy of the text.
    pub fn into_string(self, alloc: Global) -> Result<String, AllocError>
        ensures { IfOk result (λ copy. string_bytes copy ≡ text_of self.entry) }
    {
        String::from_str(alloc, self.text)
    }

    /// A copy of the text.
    pub fn into_compact_str(self, alloc: Global) -> Result<CompactStr, AllocError>
        ensures { IfOk result (λ copy. copy ≡ text_of self.entry) }
    {
        CompactStr::new(alloc, self.text)
    }

    /// A copy of the text.
    pub fn to_compact_str(self, alloc: Global) -> Result<CompactStr, AllocError>
        ensures { IfOk result (λ copy. copy ≡ text_of self.entry) }
    {
        self.into_compact_str(alloc)
    }
}

impl<'a> fmt::Display for Str<'a> {
    ghost output = { λ s. Some (text_of s) };

    fn fmt<W: fmt::Write>(&self, f: &mut fmt::Formatter<W>) -> fmt::Result {
        f.pad(self.text)
    }
}

/// A JSON string.
impl<'a> ESTree for Str<'a> {
    ghost meaning = { λ s _. plain (string (units_of (text_of s))) };

    fn serialize<S: Serializer>(&self, serializer: &mut S) -> Result<(), AllocError> {
        JsonStr(self.text).serialize(serializer)
    }
}
