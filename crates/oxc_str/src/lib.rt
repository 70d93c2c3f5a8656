//! Text types of JavaScript tools.
//!
//! [`Str`], [`Ident`] and [`CompactStr`] are texts. [`JSStr`], [`JSChar`], [`JSStrBuilder`] and [`JSText`]
//! are JavaScript strings: lists of UTF-16 code units, of which a surrogate may stand alone. They are kept
//! as [WTF-8](https://wtf-8.codeberg.page/), which is UTF-8 where none does.
//!
//! A type that ends in `Str`, and `Ident`, lives elsewhere, as in source text or in an arena, and is copied
//! freely; [`CompactStr`] and [`JSText`] own their bytes. What a value stands for, in contracts, is a list
//! of numbers: the bytes of a text, the code units of a string.
#![tactic(auto)]

pub mod compact_str;
pub mod encode_utf16;
pub mod ident;
pub mod ident_hasher;
pub mod js_char;
pub mod js_chars;
pub mod js_str;
pub mod js_str_builder;
pub mod js_str_display;
mod js_str_estree;
pub mod js_str_pattern;
pub mod js_text;
pub mod laws;
pub mod str;
pub mod wtf8;
mod wtf8_buffer;

pub use compact_str::{CompactStr, MAX_INLINE_LEN};
pub use encode_utf16::EncodeUtf16;
pub use ident::{
    ArenaIdentHashMap, ArenaIdentHashSet, Ident, IdentHashMap, IdentHashSet, new_const_ident,
};
pub use ident_hasher::{IdentBuildHasher, IdentHasher, ident_hash};
pub use js_char::JSChar;
pub use js_chars::JSChars;
pub use js_str::JSStr;
pub use js_str_builder::JSStrBuilder;
pub use js_str_display::JSStrDisplay;
pub use js_str_pattern::{JSStrPattern, Pred, Text};
pub use js_text::JSText;
pub use str::{ArenaStr, Str};
