//! The code points of JavaScript strings.

ghost use Rattle.std.specs.Char.{len_utf8};
ghost use Rattle.std.specs.Char.Escape.{encode_utf16};
ghost use Rattle.std.specs.Option.{SomeIff};
ghost use Rattle.std.specs.Prelude.{◌≡◌, ◌+◌, ◌%◌, ◌≤◌, ◌&&◌, cond, true, false, encode_utf8, length, take};
ghost use Rattle.json_text.specs.Strings.{is_lead, is_trail, joined};
ghost use Rattle.oxc_str.specs.Wtf8.{is_surrogate};

use crate::wtf8::{
    CODE_POINT_MAX, CONT_TAG, FOUR_BYTE_TAG, LEAD_SURROGATE_MAX, LEAD_SURROGATE_MIN,
    ONE_BYTE_CODE_POINT_MAX, SUPPLEMENTARY_MIN, THREE_BYTE_CODE_POINT_MAX, THREE_BYTE_TAG,
    TRAIL_SURROGATE_MAX, TRAIL_SURROGATE_MIN, TWO_BYTE_CODE_POINT_MAX, TWO_BYTE_TAG,
};
use std::marker::Model;

/// A code point of a JavaScript string: a character, or a surrogate that is in no pair. Contracts see
/// it as its number.
#[derive(Clone, Copy, Debug, PartialEq, Eq, Hash)]
pub struct JSChar(u32);

impl Model for JSChar {
    ghost use Rattle.std.specs.Prelude.{ℕ, ◌≤◌};

    ghost Value = { ℕ };

    ghost view = { λ c. c.0 };

    ghost invariant = { λ c. c.0 ≤ 0x10_FFFF };

    ghost inverse = { λ n. record { 0 = n } };
}

impl From<char> for JSChar {
    ghost from_gives = { λ value c. c ≡ value };

    fn from(value: char) -> Self {
        JSChar(value as u32)
    }
}

// The byte that goes on with a code point by its lowest bits.
fn continuation(bits: u32) -> u8
    ensures { result ≡ 128 + bits % 64 }
{
    CONT_TAG + (bits % 0x40) as u8
}

impl JSChar {
    /// The code point of this number, or `None` where it is past [`CODE_POINT_MAX`].
    pub fn from_u32(value: u32) -> Option<Self>
        ensures { SomeIff result (value ≤ CODE_POINT_MAX) value }
    {
        if value <= CODE_POINT_MAX {
            Some(JSChar(value))
        } else {
            None
        }
    }

    /// Its number.
    pub fn to_u32(self) -> u32
        ensures number { result ≡ self }
        ensures in_range { result ≤ CODE_POINT_MAX }
    {
        self.0
    }

    /// Its character, or `None` for a surrogate.
    pub fn to_char(self) -> Option<char>
        ensures { SomeIff result (is_surrogate self ≡ false) self }
    {
        char::from_u32(self.0)
    }

    /// How many bytes it has in a [`JSStr`](crate::JSStr).
    pub fn len_bytes(self) -> usize
        ensures { result ≡ len_utf8 self }
    {
        if self.0 <= ONE_BYTE_CODE_POINT_MAX {
            1
        } else if self.0 <= TWO_BYTE_CODE_POINT_MAX {
            2
        } else if self.0 <= THREE_BYTE_CODE_POINT_MAX {
            3
        } else {
            4
        }
    }

    // How many code units it has.
    pub(crate) fn len_utf16(self) -> usize
        ensures { result ≡ length (encode_utf16 self) }
    {
        if self.0 < SUPPLEMENTARY_MIN { 1 } else { 2 }
    }

    // The code point of a lead and a trail.
    pub(crate) fn of_pair(lead: JSChar, trail: JSChar) -> Self
        requires { (is_lead lead && is_trail trail) ≡ true }
        ensures { result ≡ joined lead trail }
    {
        let high = (lead.0 - LEAD_SURROGATE_MIN) * 0x400;
        JSChar(high + (trail.0 - TRAIL_SURROGATE_MIN) + SUPPLEMENTARY_MIN)
    }

    // Its bytes in generalized UTF-8, and how many these are.
    pub(crate) fn encode(self) -> ([u8; 4], usize)
        ensures bytes { take result.1 result.0 ≡ encode_utf8 self }
        ensures len { result.1 ≡ len_utf8 self }
        ensures code_point { self ≤ CODE_POINT_MAX }
    {
        let value = self.0;
        if value <= ONE_BYTE_CODE_POINT_MAX {
            ([value as u8, 0, 0, 0], 1)
        } else if value <= TWO_BYTE_CODE_POINT_MAX {
            let first = TWO_BYTE_TAG + (value / 0x40) as u8;
            ([first, continuation(value), 0, 0], 2)
        } else if value <= THREE_BYTE_CODE_POINT_MAX {
            let first = THREE_BYTE_TAG + (value / 0x1000) as u8;
            (
                [first, continuation(value / 0x40), continuation(value), 0],
                3,
            )
        } else {
            let first = FOUR_BYTE_TAG + (value / 0x4_0000) as u8;
            let second = continuation(value / 0x1000);
            (
                [
                    first,
                    second,
                    continuation(value / 0x40),
                    continuation(value),
                ],
                4,
            )
        }
    }

    // The code point of a number that is one.
    pub(crate) fn from_code_point(value: u32) -> Self
        requires { value ≤ CODE_POINT_MAX }
        ensures { result ≡ value }
    {
        JSChar(value)
    }

    pub(crate) fn is_surrogate(self) -> bool
        ensures { result ≡ is_surrogate self }
    {
        LEAD_SURROGATE_MIN <= self.0 && self.0 <= TRAIL_SURROGATE_MAX
    }

    // How many surrogates it is.
    pub(crate) fn surrogate_count(self) -> usize
        ensures { result ≡ cond (is_surrogate self) 1 0 }
    {
        if self.is_surrogate() { 1 } else { 0 }
    }

    // Whether it is a lead, and `next` a trail.
    pub(crate) fn pairs_with(self, next: JSChar) -> bool
        ensures { result ≡ (is_lead self && is_trail next) }
    {
        LEAD_SURROGATE_MIN <= self.0
            && self.0 <= LEAD_SURROGATE_MAX
            && TRAIL_SURROGATE_MIN <= next.0
            && next.0 <= TRAIL_SURROGATE_MAX
    }
}
