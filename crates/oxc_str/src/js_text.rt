//! JavaScript strings that own their bytes.

ghost use Rattle.std.specs.Cmp.Lexicographic.{nat_list_eq_equiv, pointwise};
ghost use Rattle.std.specs.Cmp.{partial_equiv_from_equiv};
ghost use Rattle.std.specs.Prelude.{◌≡◌, nat_eq, IfOk};
ghost use Rattle.json_text.specs.Units.{units_of};
ghost use Rattle.oxc_str.specs.JSStr.{js_units};

use crate::JSStr;
use crate::wtf8_buffer::Wtf8Buffer;
use std::alloc::{AllocError, Global};
use std::marker::Model;

/// A JavaScript string that owns its bytes: what a [`JSStr`] is in an arena. Contracts see it as its
/// code units.
#[derive(Drop)]
pub struct JSText {
    bytes: Vec<u8>,
    has_lone: bool,
}

impl Model for JSText {
    ghost use Rattle.std.specs.Prelude.{ℕ, List, ◌≡◌};
    ghost use Rattle.json_text.specs.Units.{units_of};
    ghost use Rattle.oxc_str.specs.Wtf8.{has_lone_surrogate, IsWtf8};

    ghost Value = { List ℕ };

    ghost view = { λ t. units_of t.bytes.items };

    ghost invariant = { λ t. IsWtf8 t.bytes.items × (t.has_lone ≡ has_lone_surrogate (units_of t.bytes.items)) };
}

impl JSText {
    /// The characters of a text.
    pub fn from_str(alloc: Global, s: &str) -> Result<Self, AllocError>
        ensures { IfOk result (λ text. text ≡ units_of s.now) }
    {
        let mut buffer = Wtf8Buffer::new(alloc);
        buffer.push_str(s)?;
        Ok(JSText::of_buffer(buffer))
    }

    /// These code units.
    pub fn from_units(alloc: Global, units: &[u16]) -> Result<Self, AllocError>
        ensures { IfOk result (λ text. text ≡ units.now) }
    {
        let mut buffer = Wtf8Buffer::with_capacity(alloc, units.len())?;
        buffer.push_utf16(units)?;
        Ok(JSText::of_buffer(buffer))
    }

    fn of_buffer(buffer: Wtf8Buffer<Global>) -> Self
        ensures { result ≡ buffer }
    {
        let (bytes, has_lone) = buffer.into_parts();
        JSText { bytes, has_lone }
    }

    /// The string, which is not copied.
    pub fn as_js_str(&self) -> JSStr<'_>
        ensures { js_units result ≡ self.now }
    {
        JSStr::from_bytes_unchecked(self.bytes.as_slice(), self.has_lone)
    }

    /// A copy of the string.
    pub fn try_clone(&self, alloc: Global) -> Result<Self, AllocError>
        ensures { IfOk result (λ text. text ≡ self.now) }
    {
        let mut bytes = Vec::new(alloc);
        bytes.extend_from_slice(self.bytes.as_slice())?;
        Ok(JSText {
            bytes,
            has_lone: self.has_lone,
        })
    }
}

/// By the code units.
impl PartialEq for JSText {
    ghost eq = { λ s t. pointwise nat_eq s t };

    ghost laws = { partial_equiv_from_equiv nat_list_eq_equiv };

    fn eq(&self, other: &Self) -> bool {
        self.bytes.as_slice() == other.bytes.as_slice()
    }
}

impl Eq for JSText {
    ghost laws = { nat_list_eq_equiv };
}
