//! The code points of a text, from both ends.

ghost use Rattle.std.specs.Iterator.{YieldsFirst, YieldsLast, item_count};
ghost use Rattle.std.specs.Prelude.{◌≡◌, ◌<◌, ◌%◌, length, ⊤};
ghost use Rattle.std.specs.Str.{chars};
ghost use Rattle.oxc_str.specs.JSChars.{BeginsWith, EndsFrom, IsGeneralizedUtf8};
ghost use Rattle.oxc_str.specs.Wtf8.{IsWtf8};

use crate::JSChar;
use crate::wtf8::{CONT_MASK, CONT_TAG, FOUR_BYTE_TAG, THREE_BYTE_TAG, TWO_BYTE_TAG};
use std::alloc::AllocError;
use std::marker::Model;

/// The code points of a [`JSStr`](crate::JSStr), from both ends. Contracts see it as the list of those
/// left.
#[derive(Drop)]
pub struct JSChars<'a> {
    // The bytes of those left.
    remaining: &'a [u8],
}

impl<'a> Model for JSChars<'a> {
    ghost use Rattle.std.specs.Prelude.{ℕ, List};
    ghost use Rattle.std.specs.Str.{chars};
    ghost use Rattle.oxc_str.specs.JSChars.{IsGeneralizedUtf8};

    ghost Value = { List ℕ };

    ghost view = { λ c. chars c.remaining.now };

    ghost invariant = { λ c. IsGeneralizedUtf8 c.remaining.now };
}

// The bits that a byte carries which goes on with a code point.
fn payload(byte: u8) -> u32
    ensures { result ≡ byte % 0x40 }
{
    u32::from(byte & CONT_MASK)
}

// The first code point of some bytes, and how many of them it has.
fn first_char(bytes: &[u8]) -> (JSChar, usize)
    requires text { IsGeneralizedUtf8 bytes.now }
    requires some { 0 < length bytes.now }
    ensures { BeginsWith bytes.now result.0 result.1 }
{
    let first = bytes[0];
    if first < CONT_TAG {
        return (JSChar::from_code_point(u32::from(first)), 1);
    }
    let second = payload(bytes[1]);
    if first < THREE_BYTE_TAG {
        let value = u32::from(first) % 0x20 * 0x40 + second;
        return (JSChar::from_code_point(value), 2);
    }
    let third = payload(bytes[2]);
    if first < FOUR_BYTE_TAG {
        let value = u32::from(first) % 0x10 * 0x1000 + second * 0x40 + third;
        return (JSChar::from_code_point(value), 3);
    }
    let fourth = payload(bytes[3]);
    let value = u32::from(first) % 0x08 * 0x4_0000 + second * 0x1000 + third * 0x40 + fourth;
    (JSChar::from_code_point(value), 4)
}

// Where the last code point of some bytes begins.
fn last_start(bytes: &[u8]) -> usize
    requires text { IsGeneralizedUtf8 bytes.now }
    requires some { 0 < length bytes.now }
    ensures { EndsFrom bytes.now result }
{
    let mut start = bytes.len() - 1;
    while CONT_TAG <= bytes[start] && bytes[start] < TWO_BYTE_TAG {
        start -= 1;
    }
    start
}

impl<'a> JSChars<'a> {
    // The code points of bytes of WTF-8.
    pub(crate) fn of_wtf8(bytes: &'a [u8]) -> Self
        requires { IsWtf8 bytes.now }
        ensures { result ≡ chars bytes.now }
    {
        JSChars { remaining: bytes }
    }
}

impl<'a> Clone for JSChars<'a> {
    ghost is_clone = { λ c r. r ≡ c };

    ghost is_infallible = { λ _. ⊤ };

    fn clone(&self) -> Result<Self, AllocError> {
        Ok(JSChars {
            remaining: self.remaining,
        })
    }
}

impl<'a> Iterator for JSChars<'a> {
    type Item = JSChar;

    ghost next_gives = { YieldsFirst (λ rest. rest) };

    ghost remaining = { item_count (λ rest. rest) };

    fn next(&mut self) -> Option<JSChar> {
        if self.remaining.is_empty() {
            return None;
        }
        let (first, len) = first_char(self.remaining);
        self.remaining = &self.remaining[len..];
        Some(first)
    }
}

impl<'a> DoubleEndedIterator for JSChars<'a> {
    ghost next_back_gives = { YieldsLast (λ rest. rest) };

    fn next_back(&mut self) -> Option<JSChar> {
        if self.remaining.is_empty() {
            return None;
        }
        let start = last_start(self.remaining);
        let (last, _) = first_char(&self.remaining[start..]);
        self.remaining = &self.remaining[..start];
        Some(last)
    }
}
