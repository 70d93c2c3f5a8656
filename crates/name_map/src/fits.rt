//! Which maps fit, and what they put back.

ghost use Rattle.std.specs.Prelude.{◌≡◌, IsUtf8, map, slice_get, slice_set, true};
ghost use Rattle.std.specs.List.{AllByRecursion};
ghost use Rattle.name_map.specs.Fits as spec;
ghost use Rattle.name_map.specs.Undoing as undoing;

use crate::list::PlaceNames;
use syntax_lex::identifier::is_identifier_name;

// Whether the i-th is there, and false.
fn is_off(marks: &[bool], i: u32) -> bool
    ensures { result ≡ spec.is_off (slice_get marks.now i) }
{
    match marks.get(i as usize) {
        Some(mark) => !*mark,
        None => false,
    }
}

#[tactic(auto, unfolding(crate::specs::Fits::is_old_name))]
fn is_old_name(name: &str) -> bool
    ensures { result ≡ spec.is_old_name name.now }
{
    name.len() < 4_294_967_296 && is_identifier_name(name)
}

#[tactic(auto, unfolding(crate::specs::Fits::name_fits))]
fn name_fits(plain: &[bool], least: u64, place: u32, name: &str) -> bool
    ensures { result ≡ spec.name_fits plain.now least (undoing.old_name place name.now) }
{
    place as u64 >= least && is_off(plain, place) && is_old_name(name)
}

#[tactic(auto, unfolding(crate::specs::Fits::mark_fits))]
fn mark_fits(marks: &[bool], least: u64, number: u32) -> bool
    ensures { result ≡ spec.mark_fits marks.now least number }
{
    number as u64 >= least && is_off(marks, number)
}

/// Whether these names fit places of which this tells which are plain.
pub(crate) fn names_fit(plain: &[bool], names: &PlaceNames) -> bool
    ensures fit { result ≡ spec.names_fit plain.now 0 names.now }
    ensures texts { AllByRecursion (λ o. IsUtf8 o.name) names.now }
{
    let mut least: u64 = 0;
    for i in 0..names.len() {
        let Some((place, name)) = names.get(i) else {
            break;
        };
        if !name_fits(plain, least, place, name) {
            return false;
        }
        least = place as u64 + 1;
    }
    true
}

/// Whether these numbers fit Properties that have these marks.
pub(crate) fn marks_fit(marks: &[bool], numbers: &[u32]) -> bool
    ensures { result ≡ spec.marks_fit marks.now 0 numbers.now }
{
    let mut least: u64 = 0;
    for number in numbers {
        if !mark_fits(marks, least, *number) {
            return false;
        }
        least = *number as u64 + 1;
    }
    true
}

fn put_name<'n>(names: &mut [&'n str], place: u32, name: &'n str)
    ensures { map (λ x. x.now) names.new ≡ slice_set (map (λ x. x.now) names.old) place name.now }
{
    if (place as usize) < names.len() {
        names[place as usize] = name;
    }
}

/// The names, with those of a list at their places.
pub(crate) fn put_names<'n>(mut names: Vec<&'n str>, old: &'n PlaceNames) -> Vec<&'n str>
    ensures { map (λ x. x.now) result.items ≡ undoing.put_names old.now (map (λ x. x.now) names.entry.items) }
{
    for i in 0..old.len() {
        let Some((place, name)) = old.get(i) else {
            break;
        };
        put_name(&mut names, place, name);
    }
    names
}

fn put_mark(marks: &mut [bool], number: u32)
    ensures { marks.new ≡ slice_set marks.old number true }
{
    if (number as usize) < marks.len() {
        marks[number as usize] = true;
    }
}

/// The marks, with those of these numbers on.
pub(crate) fn put_marks(mut marks: Vec<bool>, numbers: &[u32]) -> Vec<bool>
    ensures { result.items ≡ undoing.put_marks numbers.now marks.items }
{
    for number in numbers {
        put_mark(&mut marks, *number);
    }
    marks
}
