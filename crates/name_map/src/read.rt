//! The map that a JSON value is.

ghost use Rattle.std.specs.Prelude.{◌≡◌, ◌^◌, ◌↔◌, ◌||◌, IfErr, IfOk, IsTrue, None, Some, bytes_eq, codes, option_and_then, option_map, true};
ghost use Rattle.json_text.specs.Json.{list, object};
ghost use Rattle.json_text.specs.Units.{units_of};
ghost use Rattle.name_map.specs.Reading as spec;
ghost use Rattle.name_map.specs.Reading.{map_of};
ghost use Rattle.name_map.specs.ReadError.{Says};
ghost use Rattle.name_map.specs.Undoing.{old_name};
ghost use Rattle.serde_json.specs.View.{items_view, members_view, view};
ghost use Rattle.tree_core.specs.JsonOf as json;
ghost use Rattle.tree_core.specs.JsonOf.{json_of};
ghost use Rattle.tree_core.specs.Readable.{is_ascii};
ghost use Rattle.tree_core.specs.Reading as reading;

use crate::list::PlaceNames;
use crate::map::NameMap;
use serde_json::{Map, Value};
use std::alloc::{AllocError, AllocFailed, Global};
use thiserror::Error;

/// Why a value was not read.
#[derive(Debug, Drop, Error)]
pub enum MapReadError {
    /// It is no map.
    #[error("bad form")]
    BadForm,
    #[error("out of memory")]
    Memory,
}

impl From<AllocError> for MapReadError {
    ghost use Rattle.std.specs.Prelude.{◌≡◌};
    ghost use Rattle.name_map.specs.declared.read.MapReadError.TheVariants.{Memory};

    ghost from_gives = { λ _ e. e ≡ Memory };

    fn from(_error: AllocError) -> MapReadError {
        MapReadError::Memory
    }
}

impl<T: Drop> From<AllocFailed<T>> for MapReadError {
    ghost use Rattle.std.specs.Prelude.{◌≡◌};
    ghost use Rattle.name_map.specs.declared.read.MapReadError.TheVariants.{Memory};

    ghost from_gives = { λ _ e. e ≡ Memory };

    fn from(_error: AllocFailed<T>) -> MapReadError {
        MapReadError::Memory
    }
}

/// The map that a JSON value is: an object of exactly `names`, a list of lists of a whole number below 2^32
/// and a string, and `marks`, a list of such numbers. `BadForm` comes exactly where it isn't one.
pub fn read_map(alloc: Global, value: &Value) -> Result<NameMap, MapReadError>
    ensures ok { IfOk result (λ m. map_of (json_of (view value.now)) ≡ Some m) }
    ensures err { IfErr result (λ e. Says e (map_of (json_of (view value.now)) ≡ None)) }
{
    match value {
        Value::Object(members) => read_members(alloc, members),
        _ => Err(MapReadError::BadForm),
    }
}

fn read_members(alloc: Global, members: &Map<String, Value>) -> Result<NameMap, MapReadError>
    ensures ok { IfOk result (λ m. map_of (object (json.members_of (members_view members.now.entries))) ≡ Some m) }
    ensures err { IfErr result (λ e. Says e (map_of (object (json.members_of (members_view members.now.entries))) ≡ None)) }
{
    if !has_only("names", "marks", members) {
        return Err(MapReadError::BadForm);
    }
    let names = read_names(alloc, member(members, "names"))?;
    let marks = read_marks(alloc, member(members, "marks"))?;
    Ok(NameMap::new(names, marks))
}

// The member with this key.
fn member<'v>(members: &'v Map<String, Value>, key: &str) -> Option<&'v Value>
    requires { IsTrue (is_ascii key.now) }
    ensures { option_map (λ v. json_of (view v.now)) result
        ≡ reading.find_member key.now (json.members_of (members_view members.now.entries)) }
{
    members.get(key)
}

// Whether a key is one of these two.
fn is_one_of(key: &str, first: &str, second: &str) -> bool
    requires first { IsTrue (is_ascii first.now) }
    requires second { IsTrue (is_ascii second.now) }
    ensures { result ≡ (bytes_eq (units_of key.now) first.now
        || bytes_eq (units_of key.now) second.now) }
{
    key == first || key == second
}

// Whether an object has these two keys and no others.
fn has_only(first: &str, second: &str, members: &Map<String, Value>) -> bool
    requires first { IsTrue (is_ascii first.now) }
    requires second { IsTrue (is_ascii second.now) }
    ensures keys { result ≡ reading.has_only first.now second.now
        (json.members_of (members_view members.now.entries)) }
    ensures distinct { reading.are_distinct (json.members_of (members_view members.now.entries))
        ≡ true }
{
    for (key, _) in members.iter() {
        if !is_one_of(key.as_str(), first, second) {
            return false;
        }
    }
    true
}

fn read_names(alloc: Global, value: Option<&Value>) -> Result<PlaceNames, MapReadError>
    ensures ok { IfOk result (λ ns. spec.names_under (option_map (λ v. json_of (view v.now)) value.entry) ≡ Some ns) }
    ensures err { IfErr result (λ e. Says e (spec.names_under (option_map (λ v. json_of (view v.now)) value.entry) ≡ None)) }
{
    match value {
        Some(Value::Array(items)) => read_name_list(alloc, items),
        _ => Err(MapReadError::BadForm),
    }
}

fn read_name_list(alloc: Global, items: &Vec<Value>) -> Result<PlaceNames, MapReadError>
    ensures ok { IfOk result (λ ns. spec.old_names_in (json.items_of (items_view items.now.items)) ≡ Some ns) }
    ensures err { IfErr result (λ e. Says e (spec.old_names_in (json.items_of (items_view items.now.items)) ≡ None)) }
{
    let mut names = PlaceNames::new(alloc);
    for item in items {
        let (place, name) = pair_in(item).ok_or(MapReadError::BadForm)?;
        names.push(place, name)?;
    }
    Ok(names)
}

// The number and the text that a list is of.
fn pair_in(value: &Value) -> Option<(u32, &str)>
    ensures { option_map (λ p. old_name p.0 p.1.now) result ≡ spec.old_name_in (json_of (view value.now)) }
{
    match value {
        Value::Array(items) => pair_of(items.as_slice()),
        _ => None,
    }
}

#[tactic(auto, using(crate::proofs::PairItems::other_length))]
fn pair_of(items: &[Value]) -> Option<(u32, &str)>
    ensures { option_map (λ p. old_name p.0 p.1.now) result ≡ spec.old_name_in (list (json.items_of (items_view items.now))) }
{
    if items.len() != 2 {
        return None;
    }
    pair(number_in(&items[0]), text_in(&items[1]))
}

fn pair(place: Option<u32>, name: Option<&str>) -> Option<(u32, &str)>
    ensures { option_map (λ p. old_name p.0 p.1.now) result
        ≡ option_and_then (λ i. option_map (λ y. old_name i y) (option_map (λ s. s.now) name.entry)) place }
{
    Some((place?, name?))
}

fn text_in(value: &Value) -> Option<&str>
    ensures { option_map (λ s. s.now) result ≡ reading.text_in (json_of (view value.now)) }
{
    match value {
        Value::String(text) => Some(text.as_str()),
        _ => None,
    }
}

// A whole number of 32 bits.
fn number_in(value: &Value) -> Option<u32>
    ensures { result ≡ reading.below (2 ^ 32) (json_of (view value.now)) }
{
    match value {
        Value::Number(number) => match number.as_u64() {
            Some(n) if n < 4_294_967_296 => Some(n as u32),
            _ => None,
        },
        _ => None,
    }
}

fn read_marks(alloc: Global, value: Option<&Value>) -> Result<Vec<u32>, MapReadError>
    ensures ok { IfOk result (λ ns. spec.marks_under (option_map (λ v. json_of (view v.now)) value.entry) ≡ Some ns.items) }
    ensures err { IfErr result (λ e. Says e (spec.marks_under (option_map (λ v. json_of (view v.now)) value.entry) ≡ None)) }
{
    match value {
        Some(Value::Array(items)) => read_mark_list(alloc, items),
        _ => Err(MapReadError::BadForm),
    }
}

fn read_mark_list(alloc: Global, items: &Vec<Value>) -> Result<Vec<u32>, MapReadError>
    ensures ok { IfOk result (λ ns. spec.numbers_in (json.items_of (items_view items.now.items)) ≡ Some ns.items) }
    ensures err { IfErr result (λ e. Says e (spec.numbers_in (json.items_of (items_view items.now.items)) ≡ None)) }
{
    let mut marks = Vec::with_capacity(alloc, items.len())?;
    for item in items {
        marks.push(number_in(item).ok_or(MapReadError::BadForm)?)?;
    }
    Ok(marks)
}
