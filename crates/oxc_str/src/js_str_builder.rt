//! Strings that grow in an arena.

ghost use Rattle.std.specs.Char.Escape.{encode_utf16};
ghost use Rattle.std.specs.Iterator.{IsFinite};
ghost use Rattle.std.specs.Prelude.{◌≡◌, ◌++◌, ◌∷◌, [], IfOk, IsOk, OnErr, OnOk};
ghost use Rattle.json_text.specs.Units.{units_of};
ghost use Rattle.oxc_str.specs.JSStr.{js_units};
ghost use Rattle.oxc_str.specs.JSStrBuilder.{PushesAll, PushesSome};
ghost use Rattle.oxc_str.specs.Wtf8Buffer.{IsPartlyPushed};

use crate::wtf8_buffer::Wtf8Buffer;
use crate::{JSChar, JSStr};
use bumpalo::Bump;
use bumpalo::collections::into_bump_slice;
use std::alloc::AllocError;
use std::marker::Model;

/// Builds a [`JSStr`] in an arena by appending. A lead surrogate at the end of one push pairs with a
/// trail at the front of the next, also across empty pushes. Contracts see it as its code units.
///
/// A push that is refused appends nothing; one of many units keeps those before the refused one.
#[derive(Drop)]
pub struct JSStrBuilder<'a> {
    buffer: Wtf8Buffer<&'a Bump>,
}

impl<'a> Model for JSStrBuilder<'a> {
    ghost use Rattle.std.specs.Prelude.{ℕ, List};

    ghost Value = { List ℕ };

    ghost view = { λ b. b.buffer };
}

impl<'a> JSStrBuilder<'a> {
    /// An empty one.
    pub fn new_in(arena: &'a Bump) -> Self
        ensures { result ≡ [] }
    {
        JSStrBuilder {
            buffer: Wtf8Buffer::new(arena),
        }
    }

    /// An empty one with room for so many bytes.
    pub fn with_capacity_in(arena: &'a Bump, capacity: usize) -> Result<Self, AllocError>
        ensures { IfOk result (λ b. b ≡ []) }
    {
        Ok(JSStrBuilder {
            buffer: Wtf8Buffer::with_capacity(arena, capacity)?,
        })
    }

    /// Appends the characters of a text.
    pub fn push_str(&mut self, value: &str) -> Result<(), AllocError>
        ensures ok { OnOk result (self.new ≡ self.old ++ units_of value.now) }
        ensures refused { OnErr result (self.new ≡ self.old) }
    {
        self.buffer.push_str(value)
    }

    /// Appends a character.
    pub fn push(&mut self, value: char) -> Result<(), AllocError>
        ensures ok { OnOk result (self.new ≡ self.old ++ encode_utf16 value) }
        ensures refused { OnErr result (self.new ≡ self.old) }
    {
        self.buffer.push_js_char(JSChar::from(value))
    }

    /// Appends a code point.
    pub fn push_js_char(&mut self, value: JSChar) -> Result<(), AllocError>
        ensures ok { OnOk result (self.new ≡ self.old ++ encode_utf16 value) }
        ensures refused { OnErr result (self.new ≡ self.old) }
    {
        self.buffer.push_js_char(value)
    }

    /// Appends a code unit.
    pub fn push_code_unit(&mut self, unit: u16) -> Result<(), AllocError>
        ensures ok { OnOk result (self.new ≡ self.old ++ unit ∷ []) }
        ensures refused { OnErr result (self.new ≡ self.old) }
    {
        self.buffer.push_code_unit(unit)
    }

    /// Appends code units. Where one is refused, those before it stay.
    pub fn push_utf16(&mut self, units: &[u16]) -> Result<(), AllocError>
        ensures ok { OnOk result (self.new ≡ self.old ++ units.now) }
        ensures refused { OnErr result (IsPartlyPushed self.old units.now self.new) }
    {
        self.buffer.push_utf16(units)
    }

    /// Appends the code units that an iterator gives. Where one is refused, those before it stay.
    pub fn push_code_units<I: Iterator<Item = u16> + Drop>(
        &mut self,
        units: I,
    ) -> Result<(), AllocError>
        requires can { I.can_next units }
        requires ends { IsFinite (I.remaining units) }
        ensures ok { OnOk result (PushesAll I.next_gives units self.old self.new) }
        ensures refused { OnErr result (PushesSome I.next_gives units self.old self.new) }
    {
        for unit in units {
            self.buffer.push_code_unit(unit)?;
        }
        Ok(())
    }

    /// Appends a string.
    pub fn push_js_str(&mut self, value: JSStr<'_>) -> Result<(), AllocError>
        ensures ok { OnOk result (self.new ≡ self.old ++ js_units value.entry) }
        ensures refused { OnErr result (self.new ≡ self.old) }
    {
        self.buffer.push_js_str(value)
    }

    /// The string, which is not copied. It is never refused.
    pub fn into_js_str(self) -> Result<JSStr<'a>, AllocError>
        ensures ok { IsOk result }
        ensures units { IfOk result (λ string. js_units string ≡ self.entry) }
    {
        let (bytes, has_lone_surrogate) = self.buffer.into_parts();
        Ok(JSStr::from_bytes_unchecked(into_bump_slice(bytes), has_lone_surrogate))
    }
}
