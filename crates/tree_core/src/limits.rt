//! The limits on a value that is read.

ghost use Rattle.std.specs.Prelude.{◌≡◌, ◌||◌, min, Some, None, if◌then◌else◌};
ghost use Rattle.serde_json.specs.View.{view, items_view, members_view};
ghost use Rattle.tree_core.specs.Limits as spec;
ghost use Rattle.tree_core.specs.Limits.{is_long_array, has_long_part, has_long_item, has_long_member, objects_in, objects_in_items, objects_in_members};

use serde_json::{Map, Value};

// Objects of a value and names beside it are numbered together, below this.
const OBJECTS: usize = 1 << 30;

const ITEMS: usize = 1 << 30;

// Offsets in a text have 32 bits.
const TEXT_BYTES: usize = 4_294_967_295;

/// Whether a value is too large to be read: its objects and `more` reach 2^30, an array has 2^30
/// items or more, or a string or a key has more than 4,294,967,295 bytes.
#[tactic(auto, unfolding(crate::specs::Limits::is_too_large))]
pub fn is_too_large(value: &Value, more: usize) -> bool
    ensures { result ≡ spec.is_too_large (view value.now) more }
{
    match object_count(value) {
        Some(count) => count.saturating_add(more) >= OBJECTS,
        None => true,
    }
}

// How many objects a value has, as far as a `usize` counts. None if a part of it is too long.
#[cycle(count)]
fn object_count(value: &Value) -> Option<usize>
    ensures { result
        ≡ (if has_long_part (view value.now) then None
        else Some (min (objects_in (view value.now)) usize.MAX)) }
{
    match value {
        Value::String(text) => {
            if text.len() > TEXT_BYTES {
                None
            } else {
                Some(0)
            }
        },
        Value::Array(items) => item_objects(items),
        Value::Object(members) => Some(member_objects(members)?.saturating_add(1)),
        _ => Some(0),
    }
}

#[cycle(count)]
fn item_objects(items: &Vec<Value>) -> Option<usize>
    ensures { result
        ≡ (if is_long_array (items_view items.now.items)
        || has_long_item (items_view items.now.items) then None
        else Some (min (objects_in_items (items_view items.now.items)) usize.MAX)) }
{
    if items.len() >= ITEMS {
        return None;
    }
    let mut sum: usize = 0;
    for item in items {
        sum = sum.saturating_add(object_count(item)?);
    }
    Some(sum)
}

#[cycle(count)]
fn member_objects(members: &Map<String, Value>) -> Option<usize>
    ensures { result
        ≡ (if has_long_member (members_view members.now.entries) then None
        else Some (min (objects_in_members (members_view members.now.entries)) usize.MAX)) }
{
    let mut sum: usize = 0;
    for (key, member) in members.iter() {
        if key.len() > TEXT_BYTES {
            return None;
        }
        sum = sum.saturating_add(object_count(member)?);
    }
    Some(sum)
}
