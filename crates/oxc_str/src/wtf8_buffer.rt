//! Text that grows, as bytes of WTF-8, over any allocator.

ghost use Rattle.std.specs.Char.Escape.{encode_utf16};
ghost use Rattle.std.specs.Prelude.{◌≡◌, ◌≢◌, ◌++◌, ◌-◌, ◌≤◌, ◌∷◌, [], drop, encode_utf8, length, take, IfOk, MatchOption, OnErr, OnOk};
ghost use Rattle.std.specs.Str.{chars};
ghost use Rattle.json_text.specs.Units.{units_of};
ghost use Rattle.oxc_str.specs.JSStr.{js_bytes, js_units};
ghost use Rattle.oxc_str.specs.Wtf8.{has_lone_surrogate, IsWtf8};
ghost use Rattle.oxc_str.specs.Wtf8Buffer.{surrogate_count, IsPartlyPushed, JoinTo, StandApart};

use crate::wtf8::SURROGATE_BYTE_LEN;
use crate::{JSChar, JSChars, JSStr};
use std::alloc::{AllocError, Allocator};
use std::marker::Model;

/// Text that grows. Contracts see it as its code units.
#[derive(Drop)]
pub(crate) struct Wtf8Buffer<A: Allocator> {
    bytes: Vec<u8, A>,
    // How many surrogates stand alone.
    lone: usize,
}

impl<A: Allocator> Model for Wtf8Buffer<A> {
    ghost use Rattle.std.specs.Prelude.{ℕ, List};
    ghost use Rattle.json_text.specs.Units.{units_of};
    ghost use Rattle.oxc_str.specs.Wtf8Buffer.{IsCounted};

    ghost Value = { List ℕ };

    ghost view = { λ b. units_of b.bytes.items };

    ghost invariant = { λ b. IsCounted b.bytes.items b.lone };
}

// The code point of a lead at the end of `bytes` and a trail at the front of `more`.
fn joint(bytes: &[u8], more: &[u8]) -> Option<JSChar>
    requires bytes { IsWtf8 bytes.now }
    requires more { IsWtf8 more.now }
    ensures { MatchOption result (StandApart bytes.now more.now) (JoinTo bytes.now more.now) }
{
    let lead = JSChars::of_wtf8(bytes).next_back()?;
    let trail = JSChars::of_wtf8(more).next()?;
    if lead.pairs_with(trail) {
        Some(JSChar::of_pair(lead, trail))
    } else {
        None
    }
}

// Appends `more`, with `pair` in place of the surrogates at the end of `bytes` and the front of `more`.
fn join<A: Allocator>(bytes: &mut Vec<u8, A>, pair: &[u8], more: &[u8]) -> Result<(), AllocError>
    requires end { SURROGATE_BYTE_LEN ≤ length bytes.old.items }
    requires pair { length pair.now ≡ 4 }
    requires front { SURROGATE_BYTE_LEN ≤ length more.now }
    ensures ok { OnOk result (bytes.new.items ≡
        take (length bytes.old.items - SURROGATE_BYTE_LEN) bytes.old.items ++ (pair.now ++ drop SURROGATE_BYTE_LEN more.now)) }
    ensures refused { OnErr result (bytes.new.items ≡ bytes.old.items) }
{
    let start = bytes.len() - SURROGATE_BYTE_LEN;
    // One byte more than the surrogates have, and what follows them.
    bytes.extend_from_slice(&more[SURROGATE_BYTE_LEN - 1..])?;
    bytes[start..start + 4].copy_from_slice(pair);
    Ok(())
}

// How many surrogates stand alone in a string.
fn lone_count(value: JSStr<'_>) -> usize
    ensures { result ≡ surrogate_count (chars (js_bytes value.entry)) }
{
    if !value.has_lone_surrogate() {
        return 0;
    }
    let mut count = 0;
    let mut chars = value.chars();
    while let Some(c) = chars.next() {
        count += c.surrogate_count();
    }
    count
}

impl<A: Allocator> Wtf8Buffer<A> {
    pub(crate) fn new(alloc: A) -> Self
        ensures { result ≡ [] }
    {
        Wtf8Buffer {
            bytes: Vec::new(alloc),
            lone: 0,
        }
    }

    // With room for so many bytes at least.
    pub(crate) fn with_capacity(alloc: A, capacity: usize) -> Result<Self, AllocError>
        ensures { IfOk result (λ b. b ≡ []) }
    {
        Ok(Wtf8Buffer {
            bytes: Vec::with_capacity(alloc, capacity)?,
            lone: 0,
        })
    }

    // Appends the code units of bytes in which so many surrogates stand alone.
    fn append(&mut self, more: &[u8], lone: usize) -> Result<(), AllocError>
        requires text { IsWtf8 more.now }
        requires counted { lone ≡ surrogate_count (chars more.now) }
        ensures ok { OnOk result (self.new ≡ self.old ++ units_of more.now) }
        ensures refused { OnErr result (self.new ≡ self.old) }
    {
        match joint(self.bytes.as_slice(), more) {
            None => {
                self.bytes.extend_from_slice(more)?;
                self.lone += lone;
                Ok(())
            }
            Some(pair) => {
                let (bytes, len) = pair.encode();
                join(&mut self.bytes, &bytes[..len], more)?;
                self.lone = self.lone - 1 + (lone - 1);
                Ok(())
            }
        }
    }

    pub(crate) fn push_str(&mut self, value: &str) -> Result<(), AllocError>
        ensures ok { OnOk result (self.new ≡ self.old ++ units_of value.now) }
        ensures refused { OnErr result (self.new ≡ self.old) }
    {
        self.append(value.as_bytes(), 0)
    }

    pub(crate) fn push_js_char(&mut self, value: JSChar) -> Result<(), AllocError>
        ensures ok { OnOk result (self.new ≡ self.old ++ encode_utf16 value) }
        ensures refused { OnErr result (self.new ≡ self.old) }
    {
        let (bytes, len) = value.encode();
        self.append(&bytes[..len], value.surrogate_count())
    }

    pub(crate) fn push_code_unit(&mut self, unit: u16) -> Result<(), AllocError>
        ensures ok { OnOk result (self.new ≡ self.old ++ unit ∷ []) }
        ensures refused { OnErr result (self.new ≡ self.old) }
    {
        self.push_js_char(JSChar::from_code_point(u32::from(unit)))
    }

    pub(crate) fn push_utf16(&mut self, units: &[u16]) -> Result<(), AllocError>
        ensures ok { OnOk result (self.new ≡ self.old ++ units.now) }
        ensures refused { OnErr result (IsPartlyPushed self.old units.now self.new) }
    {
        for unit in units {
            self.push_code_unit(*unit)?;
        }
        Ok(())
    }

    pub(crate) fn push_js_str(&mut self, value: JSStr<'_>) -> Result<(), AllocError>
        ensures ok { OnOk result (self.new ≡ self.old ++ js_units value.entry) }
        ensures refused { OnErr result (self.new ≡ self.old) }
    {
        self.append(value.as_bytes(), lone_count(value))
    }

    // The bytes, and whether a surrogate stands alone in them.
    pub(crate) fn into_parts(self) -> (Vec<u8, A>, bool)
        ensures text { IsWtf8 result.0.items }
        ensures units { units_of result.0.items ≡ self }
        ensures flag { result.1 ≡ has_lone_surrogate self }
    {
        (self.bytes, self.lone != 0)
    }
}
