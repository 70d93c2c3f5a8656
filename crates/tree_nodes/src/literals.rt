//! What a Literal is, by its fields: `value`, `raw`, `pattern`, `flags` and `bigint`.

ghost use Rattle.std.specs.Prelude.{◌≡◌};
ghost use Rattle.tree_nodes.specs.Literals as spec;
ghost use Rattle.tree_nodes.specs.Tree.{atom, empty, done, part};
ghost use Rattle.tree_nodes.specs.Views.{part_of};

use crate::node::{Field, FieldList};
use crate::roles::empty_at;

/// What a Literal is.
#[derive(Clone, Copy)]
pub enum LiteralCase {
    /// A string.
    Text,
    Boolean,
    /// A whole number below 2^64.
    Number,
    Null,
    /// A number that is no whole number below 2^64.
    OtherNumber,
    RegExp,
    BigInt,
    /// The fields are those of no literal.
    NoCase,
}

fn holds_text(field: &Field) -> bool
    ensures { result ≡ spec.holds_text (part_of field.now) }
{
    match field {
        Field::Text(_) => true,
        _ => false,
    }
}

fn text_at(fields: &FieldList, i: u8) -> bool
    ensures { result ≡ spec.holds_text (part fields.now i) }
{
    match fields.get(i as usize) {
        Some(field) => holds_text(field),
        None => false,
    }
}

#[tactic(auto, unfolding(crate::specs::Literals::begins_number))]
fn begins_number(text: &str) -> bool
    ensures { result ≡ spec.begins_number text.now }
{
    match text.as_bytes() {
        [first, ..] => matches!(first, b'0'..=b'9' | b'.'),
        [] => false,
    }
}

// By the raw text, where the other fields are null.
#[tactic(auto, unfolding(crate::specs::Literals::by_raw))]
fn by_raw(raw: &Field) -> LiteralCase
    ensures { result ≡ spec.by_raw (part_of raw.now) }
{
    match raw {
        Field::Empty => LiteralCase::Null,
        Field::Text(text) => {
            if text.as_str() == "null" {
                LiteralCase::Null
            } else if begins_number(text.as_str()) {
                LiteralCase::OtherNumber
            } else {
                LiteralCase::NoCase
            }
        }
        _ => LiteralCase::NoCase,
    }
}

fn by_raw_at(fields: &FieldList) -> LiteralCase
    ensures { result ≡ spec.by_raw (part fields.now 1) }
{
    match fields.get(1) {
        Some(raw) => by_raw(raw),
        None => LiteralCase::NoCase,
    }
}

// By the value, where there is neither a pattern nor a bigint.
#[tactic(auto, unfolding(crate::specs::Literals::case_from, crate::specs::Literals::without_value, crate::specs::Literals::with_value, crate::specs::Literals::by_raw))]
fn by_value(value: &Field) -> LiteralCase
    ensures { result
        ≡ spec.case_from (part_of value.now) done (atom empty done) (atom empty done) }
{
    match value {
        Field::Flag(_) => LiteralCase::Boolean,
        Field::Str(_) => LiteralCase::Text,
        Field::Whole(_) => LiteralCase::Number,
        _ => LiteralCase::NoCase,
    }
}

fn by_value_at(fields: &FieldList) -> LiteralCase
    ensures { result
        ≡ spec.case_from (part fields.now 0) done (atom empty done) (atom empty done) }
{
    match fields.get(0) {
        Some(value) => by_value(value),
        None => LiteralCase::NoCase,
    }
}

/// What the Literal with these fields is.
pub fn case_of(fields: &FieldList) -> LiteralCase
    ensures { result ≡ spec.case_of fields.now }
{
    let no_value = empty_at(fields, 0);
    let no_pattern = empty_at(fields, 2);
    let no_bigint = empty_at(fields, 4);
    match (no_value, no_pattern, no_bigint) {
        (true, true, true) => by_raw_at(fields),
        (false, true, true) => by_value_at(fields),
        (true, false, true) if text_at(fields, 2) => LiteralCase::RegExp,
        (true, true, false) if text_at(fields, 4) => LiteralCase::BigInt,
        _ => LiteralCase::NoCase,
    }
}

/// Whether the fields are those of some literal.
#[tactic(auto, unfolding(crate::specs::Literals::has_case))]
pub fn has_case(fields: &FieldList) -> bool
    ensures { result ≡ spec.has_case fields.now }
{
    !matches!(case_of(fields), LiteralCase::NoCase)
}

/// Whether the Literal is a BigInt or a regular expression, which JSON can't hold.
#[tactic(auto, unfolding(crate::specs::Literals::is_fixed))]
pub fn is_fixed(fields: &FieldList) -> bool
    ensures { result ≡ spec.is_fixed fields.now }
{
    matches!(case_of(fields), LiteralCase::RegExp | LiteralCase::BigInt)
}

/// Whether the Literal is a string.
#[tactic(auto, unfolding(crate::specs::Literals::is_text))]
pub fn is_text(fields: &FieldList) -> bool
    ensures { result ≡ spec.is_text fields.now }
{
    matches!(case_of(fields), LiteralCase::Text)
}

/// Whether the Literal may be a key.
#[tactic(auto, unfolding(crate::specs::Literals::is_key))]
pub fn is_key(fields: &FieldList) -> bool
    ensures { result ≡ spec.is_key fields.now }
{
    matches!(
        case_of(fields),
        LiteralCase::Text | LiteralCase::Number | LiteralCase::OtherNumber | LiteralCase::BigInt
    )
}
