//! Laws of the types, each the contract of a function that does nothing.

ghost use Rattle.std.specs.List.{fold};
ghost use Rattle.std.specs.Prelude.{◌≡◌, ◌↔◌, IsTrue};
ghost use Rattle.oxc_str.specs.Equality.{ComparesBy, DecidesEquality};
ghost use Rattle.oxc_str.specs.Ident.{ident_text, stored_hash, IsHashed, IsUnhashed};
ghost use Rattle.oxc_str.specs.IdentHash as spec;
ghost use Rattle.oxc_str.specs.JSStr.{js_units};
ghost use Rattle.oxc_str.specs.Str.{text_of};
ghost use Rattle.oxc_str.specs.Wtf8.{BytesGiveUnitsBack, BytesSpellCodePoints};
ghost use Rattle.oxc_str.specs.declared.ident.Ident.{Ident as IdentValue};
ghost use Rattle.oxc_str.specs.declared.js_str.JSStr.{JSStr as StringValue};
ghost use Rattle.oxc_str.specs.declared.ident_hasher.IdentHasher.{IdentHasher as HasherState};

use crate::{CompactStr, Ident, IdentHasher, JSChar, JSStr, JSText, Str};
use std::hash::{Hash, Hasher};

/// Two [`Str`]s are equal exactly where their texts are.
pub fn strs_compare_by_text()
    ensures { ComparesBy text_of ⟦<Str<'static> as PartialEq>⟧.eq }
{}

/// Two [`CompactStr`]s are equal exactly where their texts are.
pub fn compact_strs_compare_by_text()
    ensures { DecidesEquality ⟦<CompactStr as PartialEq>⟧.eq }
{}

/// Two [`Ident`]s are equal exactly where their texts and stored hashes are.
pub fn idents_compare_by_text_and_hash()
    ensures { (a b : IdentValue) → IsTrue (⟦<Ident<'static> as PartialEq>⟧.eq a b) ↔ ((ident_text a ≡ ident_text b) × (stored_hash a ≡ stored_hash b)) }
{}

/// An unhashed [`Ident`] equals a hashed one exactly where their texts are equal and have the hash 0.
pub fn unhashed_idents_equal_hashed_ones_at_0()
    ensures { (a b : IdentValue) → IsUnhashed a → IsHashed b → IsTrue (⟦<Ident<'static> as PartialEq>⟧.eq a b) ↔ ((ident_text a ≡ ident_text b) × (spec.ident_hash (ident_text a) ≡ 0)) }
{}

/// Equal [`Ident`]s hash alike, with any hasher.
pub fn equal_idents_hash_alike()
    ensures { (a b : IdentValue) → IsTrue (⟦<Ident<'static> as PartialEq>⟧.eq a b) → ⟦<Ident<'static> as Hash>⟧.hash_input a ≡ ⟦<Ident<'static> as Hash>⟧.hash_input b }
{}

/// An [`Ident`] leaves the state of one write of its text, whatever the state before: the one of the
/// text's length and hash.
pub fn idents_hash_as_their_texts()
    ensures write { (i : IdentValue) (h : HasherState) → fold ⟦<IdentHasher as Hasher>⟧.write h (⟦<Ident<'static> as Hash>⟧.hash_input i) ≡ ⟦<IdentHasher as Hasher>⟧.write h (ident_text i) }
    ensures state { (i : IdentValue) (h : HasherState) → ⟦<IdentHasher as Hasher>⟧.finish (⟦<IdentHasher as Hasher>⟧.write h (ident_text i)) ≡ spec.written (ident_text i) }
{}

/// The bytes of code units are WTF-8, and give the code units back. So no two lists of code units have
/// the same bytes.
pub fn bytes_give_units_back()
    ensures { BytesGiveUnitsBack }
{}

/// Two [`JSChar`]s are equal exactly where their numbers are.
pub fn js_chars_compare_by_number()
    ensures { DecidesEquality ⟦<JSChar as PartialEq>⟧.eq }
{}

/// Two [`JSStr`]s are equal exactly where their code units are.
pub fn js_strs_compare_by_units()
    ensures { ComparesBy js_units ⟦<JSStr<'static> as PartialEq>⟧.eq }
{}

/// Equal [`JSStr`]s hash alike, with any hasher.
pub fn equal_js_strs_hash_alike()
    ensures { (a b : StringValue) → IsTrue (⟦<JSStr<'static> as PartialEq>⟧.eq a b) → ⟦<JSStr<'static> as Hash>⟧.hash_input a ≡ ⟦<JSStr<'static> as Hash>⟧.hash_input b }
{}

/// Two [`JSText`]s are equal exactly where their code units are.
pub fn js_texts_compare_by_units()
    ensures { DecidesEquality ⟦<JSText as PartialEq>⟧.eq }
{}

/// The code points that bytes of WTF-8 spell, which [`JSStr::chars`] gives, are those of the code units:
/// a lead surrogate that a trail surrogate follows is one code point with it, and each other unit is one.
pub fn bytes_spell_code_points()
    ensures { BytesSpellCodePoints }
{}
