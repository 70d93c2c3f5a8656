//! The code units of a text.

ghost use Rattle.std.specs.Iterator.{YieldsFirst, item_count};
ghost use Rattle.std.specs.Prelude.{◌≡◌, flat_map, ⊤};
ghost use Rattle.std.specs.Char.Escape.{encode_utf16};

use crate::JSChars;
use crate::wtf8::{LEAD_SURROGATE_MIN, SUPPLEMENTARY_MIN, TRAIL_SURROGATE_MIN};
use std::alloc::AllocError;
use std::marker::Model;

/// The code units of a [`JSStr`](crate::JSStr). Contracts see it as the list of those left.
#[derive(Drop)]
pub struct EncodeUtf16<'a> {
    // The trail of a pair whose lead was given.
    pending: Option<u16>,
    chars: JSChars<'a>,
}

impl<'a> Model for EncodeUtf16<'a> {
    ghost use Rattle.std.specs.Char.Escape.{encode_utf16};
    ghost use Rattle.std.specs.Option.{option_to_list};
    ghost use Rattle.std.specs.Prelude.{ℕ, List, ◌++◌, flat_map};

    ghost Value = { List ℕ };

    ghost view = { λ e. option_to_list e.pending ++ flat_map encode_utf16 e.chars };
}

impl<'a> EncodeUtf16<'a> {
    // The code units of these code points.
    pub(crate) fn of_chars(chars: JSChars<'a>) -> Self
        ensures { result ≡ flat_map encode_utf16 chars.entry }
    {
        EncodeUtf16 {
            pending: None,
            chars,
        }
    }
}

impl<'a> Clone for EncodeUtf16<'a> {
    ghost is_clone = { λ e r. r ≡ e };

    ghost is_infallible = { λ _. ⊤ };

    fn clone(&self) -> Result<Self, AllocError> {
        Ok(EncodeUtf16 {
            pending: self.pending,
            chars: self.chars.clone()?,
        })
    }
}

impl<'a> Iterator for EncodeUtf16<'a> {
    type Item = u16;

    ghost next_gives = { YieldsFirst (λ rest. rest) };

    ghost remaining = { item_count (λ rest. rest) };

    fn next(&mut self) -> Option<u16> {
        if let Some(trail) = self.pending {
            self.pending = None;
            return Some(trail);
        }
        let Some(c) = self.chars.next() else {
            return None;
        };
        let value = c.to_u32();
        if value < SUPPLEMENTARY_MIN {
            return Some(value as u16);
        }
        let offset = value - SUPPLEMENTARY_MIN;
        self.pending = Some((TRAIL_SURROGATE_MIN + offset % 0x400) as u16);
        Some((LEAD_SURROGATE_MIN + offset / 0x400) as u16)
    }
}
