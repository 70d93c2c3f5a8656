//! What can be looked for in a JavaScript string.

ghost use Rattle.std.specs.Prelude.{◌≡◌, ◌↔◌, ℕ, Bool, List, true, false, ⊤, encode_utf8, IsSome, IsTrue};
ghost use Rattle.memchr.specs.Find.{OccursAt};
ghost use Rattle.oxc_str.specs.JSStr.{js_bytes};
ghost use Rattle.oxc_str.specs.JSStrPattern.{Answers, IsGreatest, IsLeast, IsOneAnswer, OccursAtEnd, PassesAt, PassesAtEnd};

use crate::{JSChar, JSStr};
use memchr::arch::all::{is_prefix, is_suffix};
use memchr::memmem;

/// What can be looked for in a [`JSStr`]: a [`Text`], a `char`, or a [`Pred`]. Offsets count the bytes
/// of the string. A lone surrogate matches no character and no predicate.
pub trait JSStrPattern {
    // Whether it matches at this byte offset of these bytes, at their front and at their end.
    ghost matches_at: { Self → List ℕ → ℕ → Type 0 };

    ghost matches_front: { Self → List ℕ → Type 0 };

    ghost matches_end: { Self → List ℕ → Type 0 };

    // It may be looked for.
    ghost callable: { Self → Type 0 };

    /// Where the first match is, or `None` where there is none.
    fn find_in(self, haystack: JSStr<'_>) -> Option<usize>
        requires { callable self }
        ensures { IsLeast (matches_at self (js_bytes haystack.entry)) result };

    /// Where the last match is, or `None` where there is none.
    fn rfind_in(self, haystack: JSStr<'_>) -> Option<usize>
        requires { callable self }
        ensures { IsGreatest (matches_at self (js_bytes haystack.entry)) result };

    /// Whether a match stands at the front.
    fn is_prefix_of(self, haystack: JSStr<'_>) -> bool
        requires { callable self }
        ensures { IsTrue result ↔ matches_front self (js_bytes haystack.entry) };

    /// Whether a match stands at the end.
    fn is_suffix_of(self, haystack: JSStr<'_>) -> bool
        requires { callable self }
        ensures { IsTrue result ↔ matches_end self (js_bytes haystack.entry) };
}

/// A text to be looked for.
#[derive(Clone, Copy, Debug)]
pub struct Text<'p>(
    /// The text.
    pub &'p str,
);

impl<'p> JSStrPattern for Text<'p> {
    ghost matches_at = { λ p bytes k. OccursAt bytes p.0.now k };

    ghost matches_front = { λ p bytes. OccursAt bytes p.0.now 0 };

    ghost matches_end = { λ p bytes. OccursAtEnd bytes p.0.now };

    ghost callable = { λ _. ⊤ };

    fn find_in(self, haystack: JSStr<'_>) -> Option<usize> {
        find_bytes(haystack.as_bytes(), self.0.as_bytes())
    }

    fn rfind_in(self, haystack: JSStr<'_>) -> Option<usize> {
        rfind_bytes(haystack.as_bytes(), self.0.as_bytes())
    }

    fn is_prefix_of(self, haystack: JSStr<'_>) -> bool {
        is_prefix(haystack.as_bytes(), self.0.as_bytes())
    }

    fn is_suffix_of(self, haystack: JSStr<'_>) -> bool {
        ends_with_bytes(haystack.as_bytes(), self.0.as_bytes())
    }
}

/// A character, by its bytes: these stand nowhere but at a code point.
impl JSStrPattern for char {
    ghost matches_at = { λ c bytes k. OccursAt bytes (encode_utf8 c) k };

    ghost matches_front = { λ c bytes. OccursAt bytes (encode_utf8 c) 0 };

    ghost matches_end = { λ c bytes. OccursAtEnd bytes (encode_utf8 c) };

    ghost callable = { λ _. ⊤ };

    fn find_in(self, haystack: JSStr<'_>) -> Option<usize> {
        let mut buffer = [0; char::MAX_LEN_UTF8];
        find_bytes(
            haystack.as_bytes(),
            self.encode_utf8(&mut buffer).as_bytes(),
        )
    }

    fn rfind_in(self, haystack: JSStr<'_>) -> Option<usize> {
        let mut buffer = [0; char::MAX_LEN_UTF8];
        rfind_bytes(
            haystack.as_bytes(),
            self.encode_utf8(&mut buffer).as_bytes(),
        )
    }

    fn is_prefix_of(self, haystack: JSStr<'_>) -> bool {
        let mut buffer = [0; char::MAX_LEN_UTF8];
        is_prefix(
            haystack.as_bytes(),
            self.encode_utf8(&mut buffer).as_bytes(),
        )
    }

    fn is_suffix_of(self, haystack: JSStr<'_>) -> bool {
        let mut buffer = [0; char::MAX_LEN_UTF8];
        ends_with_bytes(
            haystack.as_bytes(),
            self.encode_utf8(&mut buffer).as_bytes(),
        )
    }
}

fn find_bytes(haystack: &[u8], needle: &[u8]) -> Option<usize>
    ensures { IsLeast (OccursAt haystack.now needle.now) result }
{
    memmem::find(haystack, needle)
}

fn rfind_bytes(haystack: &[u8], needle: &[u8]) -> Option<usize>
    ensures { IsGreatest (OccursAt haystack.now needle.now) result }
{
    memmem::rfind(haystack, needle)
}

fn ends_with_bytes(haystack: &[u8], needle: &[u8]) -> bool
    ensures { IsTrue result ↔ OccursAtEnd haystack.now needle.now }
{
    is_suffix(haystack, needle)
}

/// A test of characters, which can be called at any time and answers one character always alike. It
/// isn't called for a lone surrogate.
#[derive(Drop)]
pub struct Pred<F>(
    /// The test.
    pub F,
);

impl<F: Fn(char) -> bool + Drop> JSStrPattern for Pred<F> {
    ghost matches_at = { λ p bytes k. PassesAt (λ c. F.post p.0 c true) bytes k };

    ghost matches_front = { λ p bytes. PassesAt (λ c. F.post p.0 c true) bytes 0 };

    ghost matches_end = { λ p bytes. PassesAtEnd (λ c. F.post p.0 c true) bytes };

    // It may be called at any time, and answers the same for one character.
    ghost callable = { λ p. F.IsAlwaysCallable p.0 × IsOneAnswer (F.post p.0) };

    fn find_in(self, haystack: JSStr<'_>) -> Option<usize> {
        let mut offset = 0;
        let mut chars = haystack.chars();
        while let Some(c) = chars.next() {
            if self.passes(c) {
                return Some(offset);
            }
            offset += c.len_bytes();
        }
        None
    }

    fn rfind_in(self, haystack: JSStr<'_>) -> Option<usize> {
        let mut offset = haystack.len();
        let mut chars = haystack.chars();
        while let Some(c) = chars.next_back() {
            offset -= c.len_bytes();
            if self.passes(c) {
                return Some(offset);
            }
        }
        None
    }

    fn is_prefix_of(self, haystack: JSStr<'_>) -> bool {
        match haystack.chars().next() {
            Some(c) => self.passes(c),
            None => false,
        }
    }

    fn is_suffix_of(self, haystack: JSStr<'_>) -> bool {
        match haystack.chars().next_back() {
            Some(c) => self.passes(c),
            None => false,
        }
    }
}

impl<F: Fn(char) -> bool + Drop> Pred<F> {
    // Whether a code point is a character that passes.
    fn passes(&self, c: JSChar) -> bool
        requires { F.IsAlwaysCallable self.now.0 }
        ensures { Answers (λ d b. F.post self.now.0 d b) c result }
    {
        match c.to_char() {
            Some(c) => (self.0)(c),
            None => false,
        }
    }
}

impl<'a> JSStr<'a> {
    /// Whether `pattern` matches anywhere.
    pub fn contains<P: JSStrPattern>(self, pattern: P) -> bool
        requires { P.callable pattern }
        ensures { IsTrue result ↔ ((k : ℕ) × P.matches_at pattern (js_bytes self.entry) k) }
    {
        pattern.find_in(self).is_some()
    }

    /// Whether `pattern` matches at the front.
    pub fn starts_with<P: JSStrPattern>(self, pattern: P) -> bool
        requires { P.callable pattern }
        ensures { IsTrue result ↔ P.matches_front pattern (js_bytes self.entry) }
    {
        pattern.is_prefix_of(self)
    }

    /// Whether `pattern` matches at the end.
    pub fn ends_with<P: JSStrPattern>(self, pattern: P) -> bool
        requires { P.callable pattern }
        ensures { IsTrue result ↔ P.matches_end pattern (js_bytes self.entry) }
    {
        pattern.is_suffix_of(self)
    }

    /// The byte offset of the first match of `pattern`, or `None` where there is none.
    pub fn find<P: JSStrPattern>(self, pattern: P) -> Option<usize>
        requires { P.callable pattern }
        ensures { IsLeast (P.matches_at pattern (js_bytes self.entry)) result }
    {
        pattern.find_in(self)
    }

    /// The byte offset of the last match of `pattern`, or `None` where there is none.
    pub fn rfind<P: JSStrPattern>(self, pattern: P) -> Option<usize>
        requires { P.callable pattern }
        ensures { IsGreatest (P.matches_at pattern (js_bytes self.entry)) result }
    {
        pattern.rfind_in(self)
    }
}
