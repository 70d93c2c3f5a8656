//! JavaScript strings as JSON strings.

ghost use Rattle.std.specs.Iterator.{YieldsFirst, item_count};
ghost use Rattle.std.specs.Prelude.{◌≡◌, ⊤};
ghost use Rattle.json_text.specs.Json.{string};
ghost use Rattle.oxc_estree.specs.Out.{plain};
ghost use Rattle.oxc_str.specs.JSStr.{js_units};

use crate::{JSChars, JSStr};
use oxc_estree::{CodePoints, ESTree, JsonStr, LoneSurrogatesString, Serializer};
use std::alloc::AllocError;
use std::marker::Model;

/// A JSON string. A surrogate that stands alone is an escape in it.
impl<'a> ESTree for JSStr<'a> {
    ghost meaning = { λ s _. plain (string (js_units s)) };

    fn serialize<S: Serializer>(&self, serializer: &mut S) -> Result<(), AllocError> {
        match self.as_str() {
            Some(text) => JsonStr(text).serialize(serializer),
            None => LoneSurrogatesString(Numbers {
                chars: self.chars(),
            })
            .serialize(serializer),
        }
    }
}

// The numbers of code points.
#[derive(Drop)]
struct Numbers<'a> {
    chars: JSChars<'a>,
}

impl<'a> Model for Numbers<'a> {
    ghost use Rattle.std.specs.Prelude.{ℕ, List};

    ghost Value = { List ℕ };

    ghost view = { λ n. n.chars };
}

impl<'a> Clone for Numbers<'a> {
    ghost is_clone = { λ n r. r ≡ n };

    ghost is_infallible = { λ _. ⊤ };

    fn clone(&self) -> Result<Self, AllocError> {
        Ok(Numbers {
            chars: self.chars.clone()?,
        })
    }
}

impl<'a> Iterator for Numbers<'a> {
    type Item = u32;

    ghost next_gives = { YieldsFirst (λ rest. rest) };

    ghost remaining = { item_count (λ rest. rest) };

    fn next(&mut self) -> Option<u32> {
        match self.chars.next() {
            Some(c) => Some(c.to_u32()),
            None => None,
        }
    }
}

impl<'a> CodePoints for Numbers<'a> {
    ghost use Rattle.oxc_str.specs.Numbers.{first_by_first};

    ghost code_points = { λ n. n };

    ghost gives_these = { λ n. record { can_next = tt; ends = tt; yields = first_by_first n } };

    ghost clones_alike = { λ _ _ e. e };
}
