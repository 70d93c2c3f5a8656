//! Values that can be written.

ghost use Rattle.std.specs.Prelude.{◌≡◌, map, string_bytes};
ghost use Rattle.json_text.specs.Json.{null, string, truth};
ghost use Rattle.json_text.specs.Units.{units_of};
ghost use Rattle.oxc_estree.specs.Open.{list_of};
ghost use Rattle.oxc_estree.specs.Out.{plain};
ghost use Rattle.oxc_estree.specs.Values.{option_meaning};

use crate::strings::print_quoted;
use crate::{ESTree, ESTreeSequenceSerializer, SequenceSerializer, Serializer};
use std::alloc::AllocError;

impl ESTree for bool {
    ghost meaning = { λ b _. plain (truth b) };

    fn serialize<S: Serializer>(&self, serializer: &mut S) -> Result<(), AllocError> {
        let text = if *self { "true" } else { "false" };
        serializer.buffer_mut().print_str(text)
    }
}

impl ESTree for () {
    ghost meaning = { λ _ _. plain null };

    fn serialize<S: Serializer>(&self, serializer: &mut S) -> Result<(), AllocError> {
        serializer.buffer_mut().print_str("null")
    }
}

/// `None` is null.
impl<T: ESTree> ESTree for Option<T> {
    ghost meaning = { λ o f. option_meaning (λ v. T.meaning v f) o };

    fn serialize<S: Serializer>(&self, serializer: &mut S) -> Result<(), AllocError> {
        match self {
            Some(value) => value.serialize(serializer),
            None => serializer.buffer_mut().print_str("null"),
        }
    }
}

impl<T: ESTree> ESTree for &T {
    ghost meaning = { λ v f. T.meaning v.now f };

    fn serialize<S: Serializer>(&self, serializer: &mut S) -> Result<(), AllocError> {
        (**self).serialize(serializer)
    }
}

impl<T: ESTree> ESTree for &mut T {
    ghost meaning = { λ v f. T.meaning v.now f };

    fn serialize<S: Serializer>(&self, serializer: &mut S) -> Result<(), AllocError> {
        (**self).serialize(serializer)
    }
}

impl ESTree for String {
    ghost meaning = { λ s _. plain (string (units_of (string_bytes s))) };

    fn serialize<S: Serializer>(&self, serializer: &mut S) -> Result<(), AllocError> {
        print_quoted(serializer.buffer_mut(), self.as_str())
    }
}

/// A text as a JSON string.
#[derive(Clone, Copy, Debug)]
pub struct JsonStr<'a>(pub &'a str);

impl<'a> ESTree for JsonStr<'a> {
    ghost meaning = { λ v _. plain (string (units_of v.0.now)) };

    fn serialize<S: Serializer>(&self, serializer: &mut S) -> Result<(), AllocError> {
        print_quoted(serializer.buffer_mut(), self.0)
    }
}

/// A text of which no byte needs an escape, as a JSON string.
#[derive(Clone, Copy, Debug)]
pub struct JsonSafeString<'s>(pub &'s str);

impl<'s> ESTree for JsonSafeString<'s> {
    ghost meaning = { λ v _. plain (string (units_of v.0.now)) };

    fn serialize<S: Serializer>(&self, serializer: &mut S) -> Result<(), AllocError> {
        print_quoted(serializer.buffer_mut(), self.0)
    }
}

/// A slice as a JSON list.
#[derive(Debug)]
#[derive_where(Clone, Copy)]
pub struct JsonSlice<'a, T>(pub &'a [T]);

impl<'a, T: ESTree> ESTree for JsonSlice<'a, T> {
    ghost meaning = { λ v f. list_of (map (λ x. T.meaning x f) v.0.now) };

    fn serialize<S: Serializer>(&self, serializer: &mut S) -> Result<(), AllocError> {
        let mut sequence = ESTreeSequenceSerializer::new(serializer)?;
        for element in self.0 {
            sequence.serialize_element(element)?;
        }
        sequence.end()
    }
}

impl<T: ESTree, const N: usize> ESTree for [T; N] {
    ghost meaning = { λ v f. list_of (map (λ x. T.meaning x f) v) };

    fn serialize<S: Serializer>(&self, serializer: &mut S) -> Result<(), AllocError> {
        JsonSlice(self.as_slice()).serialize(serializer)
    }
}
