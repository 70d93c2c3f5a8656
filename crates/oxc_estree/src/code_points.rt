//! Strings that are given as code points, surrogates among them.

ghost use Rattle.std.specs.Option.{ForSome};
ghost use Rattle.std.specs.Prelude.{◌≡◌, IfOk, IsTrue, List, OnErr, OnOk, ℕ};
ghost use Rattle.json_text.specs.Json.{string};
ghost use Rattle.json_text.specs.Strings.{flush, is_lead, is_trail, joined, quoted_units, trail_text, waits};
ghost use Rattle.oxc_data_structures.specs.CodeBuffer.{Appends};
ghost use Rattle.oxc_estree.specs.CodePoints.{Gives, point_char, point_text, points_units};
ghost use Rattle.oxc_estree.specs.Out.{plain};
ghost use Rattle.oxc_estree.specs.Refused.{IsPartlyPrinted};

use crate::strings::{print_text_char, print_unit_escape};
use crate::{ESTree, Serializer};
use oxc_data_structures::code_buffer::CodeBuffer;
use std::alloc::AllocError;
use std::array;
use std::iter::{Cloned, Copied};
use std::slice::Iter;

/// An iterator that always gives the same code points, as its clones do.
///
/// The trait has no methods: it says which code points an iterator gives, and that it ends.
pub trait CodePoints: Iterator<Item = u32> + Clone {
    // The code points that are left.
    ghost code_points: { Self → List ℕ };

    ghost gives_these: { (points : Self) →
        Gives Self.can_next Self.remaining Self.next_gives points (code_points points) };

    ghost clones_alike: { (points copy : Self) →
        Self.is_clone points copy → code_points copy ≡ code_points points };
}

impl<'a> CodePoints for Copied<Iter<'a, u32>> {
    ghost use Rattle.std.specs.Prelude.{refl};
    ghost use Rattle.std.specs.Slice.Iter.{iter_rest};
    ghost use Rattle.std.specs.Iterator.Adapters.{copied_source};
    ghost use Rattle.std.proofs.lemmas.Iterator.{YieldsList-from_slice};
    ghost use Rattle.std.proofs.lemmas.Iterator.Consumers.{YieldsList-from_copied};

    ghost code_points = { λ s. iter_rest (copied_source s) };

    ghost gives_these = { λ s. record {
      can_next = tt;
      ends = tt;
      yields = (YieldsList-from_copied (YieldsList-from_slice (iter_rest (copied_source s)) refl)).runs;
    } };

    ghost clones_alike = { λ _ _ e. e };
}

impl<'a> CodePoints for Cloned<Iter<'a, u32>> {
    ghost use Rattle.std.specs.Prelude.{refl};
    ghost use Rattle.std.specs.Slice.Iter.{iter_rest};
    ghost use Rattle.std.specs.Iterator.Adapters.{cloned_source};
    ghost use Rattle.std.proofs.lemmas.Iterator.{YieldsList-from_slice};
    ghost use Rattle.std.proofs.lemmas.Iterator.Adapters.{YieldsList-from_cloned};

    ghost code_points = { λ s. iter_rest (cloned_source s) };

    ghost gives_these = { λ s. record {
      can_next = (tt, λ _. tt);
      ends = tt;
      yields = (YieldsList-from_cloned _ _ (λ _ _ e. e) (YieldsList-from_slice (iter_rest (cloned_source s)) refl)).runs;
    } };

    ghost clones_alike = { λ _ _ e. e };
}

impl<const N: usize> CodePoints for array::IntoIter<u32, N> {
    ghost use Rattle.std.specs.Array.Iter.{array_into_iter_items, array_steps};
    ghost use Rattle.std.specs.List.{each_same};
    ghost use Rattle.std.proofs.lemmas.Iterator.Consumers.{YieldsList-from_shown};

    ghost code_points = { λ s. array_into_iter_items s };

    ghost gives_these = { λ s. record {
      can_next = tt;
      ends = tt;
      yields = (YieldsList-from_shown (array_steps {A = ℕ} {n = N}) (λ x. x) array_into_iter_items (λ _ _ e. e.0) (λ _ _ _ e. e) s).runs;
    } };

    ghost clones_alike = { λ _ _ e. each_same _ _ e };
}

/// A string that is given as code points, which may be surrogates.
///
/// A surrogate that stands alone is written as an escape, since no text in UTF-8 has it; a lead
/// surrogate with the trail surrogate after it is written as the character that they are. A number
/// above 10FFFF is written as the replacement character.
#[derive(Drop)]
pub struct LoneSurrogatesString<I>(pub I);

impl<I: CodePoints> ESTree for LoneSurrogatesString<I> {
    ghost meaning = { λ v _. plain (string (points_units (I.code_points v.0))) };

    fn serialize<S: Serializer>(&self, serializer: &mut S) -> Result<(), AllocError> {
        let code_points = self.0.clone()?;
        print_code_points(serializer.buffer_mut(), code_points)
    }
}

fn print_code_points<I: CodePoints>(
    buffer: &mut CodeBuffer,
    code_points: I,
) -> Result<(), AllocError>
    ensures ok { OnOk result (Appends buffer.old buffer.new
        (quoted_units (points_units (I.code_points code_points)))) }
    ensures refused { OnErr result (IsPartlyPrinted buffer.old buffer.new
        (quoted_units (points_units (I.code_points code_points)))) }
{
    buffer.print_ascii_byte(b'"')?;
    let mut lead = None;
    for code_point in code_points {
        lead = print_code_point(buffer, lead, code_point)?;
    }
    print_lead(buffer, lead)?;
    buffer.print_ascii_byte(b'"')
}

// Appends a code point after a lead surrogate that was not printed yet, and answers the one that is
// to be printed with what comes next.
fn print_code_point(
    buffer: &mut CodeBuffer,
    lead: Option<u32>,
    code_point: u32,
) -> Result<Option<u32>, AllocError>
    requires { ForSome lead (λ u. IsTrue (is_lead u)) }
    ensures next { IfOk result (λ next. next ≡ waits code_point) }
    ensures ok { OnOk result (Appends buffer.old buffer.new (point_text lead code_point)) }
    ensures refused { OnErr result (IsPartlyPrinted buffer.old buffer.new (point_text lead code_point)) }
{
    if is_trail(code_point) {
        print_trail(buffer, lead, code_point)?;
        return Ok(None);
    }
    print_lead(buffer, lead)?;
    if is_lead(code_point) {
        return Ok(Some(code_point));
    }
    print_text_char(buffer, char_of(code_point))?;
    Ok(None)
}

fn print_trail(buffer: &mut CodeBuffer, lead: Option<u32>, trail: u32) -> Result<(), AllocError>
    requires lead { ForSome lead (λ u. IsTrue (is_lead u)) }
    requires trail { IsTrue (is_trail trail) }
    ensures ok { OnOk result (Appends buffer.old buffer.new (trail_text lead trail)) }
    ensures refused { OnErr result (IsPartlyPrinted buffer.old buffer.new (trail_text lead trail)) }
{
    match lead {
        Some(lead) => buffer.print_char(join(lead, trail)),
        None => print_unit_escape(buffer, trail),
    }
}

fn print_lead(buffer: &mut CodeBuffer, lead: Option<u32>) -> Result<(), AllocError>
    requires { ForSome lead (λ u. IsTrue (is_lead u)) }
    ensures ok { OnOk result (Appends buffer.old buffer.new (flush lead)) }
    ensures refused { OnErr result (IsPartlyPrinted buffer.old buffer.new (flush lead)) }
{
    match lead {
        Some(lead) => print_unit_escape(buffer, lead),
        None => Ok(()),
    }
}

fn is_lead(code_point: u32) -> bool
    ensures { result ≡ is_lead code_point }
{
    (0xd800..0xdc00).contains(&code_point)
}

fn is_trail(code_point: u32) -> bool
    ensures { result ≡ is_trail code_point }
{
    (0xdc00..0xe000).contains(&code_point)
}

// The character of a lead surrogate and a trail surrogate.
fn join(lead: u32, trail: u32) -> char
    requires lead { IsTrue (is_lead lead) }
    requires trail { IsTrue (is_trail trail) }
    ensures { result ≡ joined lead trail }
{
    char::from_u32((lead - 0xd800) * 0x400 + (trail - 0xdc00) + 0x1_0000).unwrap_or(
        char::REPLACEMENT_CHARACTER,
    )
}

fn char_of(code_point: u32) -> char
    ensures { result ≡ point_char code_point }
{
    char::from_u32(code_point).unwrap_or(char::REPLACEMENT_CHARACTER)
}
