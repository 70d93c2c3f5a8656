//! What private names are bound to.

ghost use Rattle.std.specs.Prelude.{◌≡◌, ◌<◌, ℕ, suc, ◌&&◌, List, IfOk, length};
ghost use Rattle.std.specs.List.{Contains};
ghost use Rattle.place_list.specs.Bounds.{IsBelow, IsBounded};
ghost use Rattle.place_list.specs.TableViews.{classes_at, list_view, place_in};
ghost use Rattle.place_list.specs.declared.tables.PlaceEntry.{PlaceEntry};
ghost use Rattle.scope_rules.specs.Bindings.{is_node, same_name};
ghost use Rattle.scope_rules.specs.PrivateNames.{declares_private, is_member_key, private_binding};
ghost use Rattle.scope_tables.specs.Keys.{at_key};
ghost use Rattle.scope_tables.specs.Nearest.{nearest};
ghost use Rattle.scope_tables.specs.Private.{HoldsPrivate};
ghost use Rattle.scope_tables.specs.Views.{AllStand, Stands, places_of, site_in};

use crate::firsts::put_first;
use crate::key::Key;
use crate::roles::is_member_key;
use place_list::{PlaceEntry, PlaceList};
use std::alloc::{AllocError, Global};
use std::collections::BTreeMap;

/// By private names in class bodies, the node of the first place that declares the name there. Err is want of memory.
pub fn private_declarations(
    alloc: Global,
    list: &PlaceList<'_>,
    places: &[PlaceEntry<'_>],
) -> Result<BTreeMap<Key, u32>, AllocError>
    requires { AllStand list.now places.now }
    ensures { IfOk result (λ m. HoldsPrivate list.now places.now places.now m) }
{
    let mut firsts = BTreeMap::new(alloc);
    for place in places {
        if let Some(class_body) = declared_class(list, place) {
            let key = Key::new(Some(class_body), place.name_number);
            put_first(&mut firsts, key, place.node)?;
        }
    }
    Ok(firsts)
}

// The class body in which a place declares a private name.
fn declared_class(list: &PlaceList<'_>, place: &PlaceEntry<'_>) -> Option<u32>
    requires { Stands list.now place.now }
    ensures { (c : ℕ) → is_node result c ≡ declares_private c (site_in list.now place.now) }
{
    if is_private_key(place) {
        place.setting.class_body
    } else {
        None
    }
}

// Whether the place is a member's own key, and private.
fn is_private_key(place: &PlaceEntry<'_>) -> bool
    ensures { result ≡ (place.now.private && is_member_key place.now.setting.role) }
{
    place.private && is_member_key(place.setting.role)
}

/// The binding of a place's private name, among all those whose private declarations these are.
pub fn private_binding(
    list: &PlaceList<'_>,
    declarations: &BTreeMap<Key, u32>,
    place: &PlaceEntry<'_>,
) -> Option<u32>
    requires { Stands list.now place.now }
    ensures { (all : List PlaceEntry) → HoldsPrivate list.now all all declarations.now → Contains all place.now → result ≡ private_binding same_name (places_of list.now all) (place_in list.now place.now) }
{
    if place.private {
        nearest_class(
            list,
            declarations,
            place.setting.class_body,
            place.name_number,
        )
    } else {
        None
    }
}

// The nearest declaration of the name, from a class body outwards.
fn nearest_class(
    list: &PlaceList<'_>,
    declarations: &BTreeMap<Key, u32>,
    class_body: Option<u32>,
    name: u32,
) -> Option<u32>
    requires bounded { IsBounded (list_view list.now) }
    requires class_body { IsBelow (length list.now.class_bodies.items) class_body }
    ensures { result ≡ nearest (λ c. at_key declarations.now (suc c) name) (classes_at list.now class_body) }
{
    let mut at = class_body;
    while let Some(c) = at {
        let found = declared_in(declarations, c, name);
        if found.is_some() {
            return found;
        }
        at = list.outer_class(c);
    }
    None
}

// The first place that declares the name in this class body.
#[tactic(auto, unfolding(crate::specs::Keys::number_from))]
fn declared_in(declarations: &BTreeMap<Key, u32>, class_body: u32, name: u32) -> Option<u32>
    ensures { result ≡ at_key declarations.now (suc class_body) name }
{
    declarations.get(&Key::new(Some(class_body), name)).copied()
}
