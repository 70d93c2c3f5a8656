//! The first place of each name in each scope.

ghost use Rattle.std.specs.Prelude.{◌≡◌, OnOk, IfOk};
ghost use Rattle.scope_tables.specs.Firsts.{HoldsFirsts, TakesIn};
ghost use Rattle.scope_tables.specs.Keys.{PutsFirst};
ghost use Rattle.scope_tables.specs.Views.{AllStand, Stands};

use crate::key::Key;
use crate::sites::{Declaring, key_of, passes};
use place_list::{PlaceEntry, PlaceList};
use std::alloc::{AllocError, Global};
use std::collections::BTreeMap;

/// By names in scopes, the node of the first place that declares the name there in this way. Err is want of memory.
pub fn first_declarations(
    alloc: Global,
    list: &PlaceList<'_>,
    places: &[PlaceEntry<'_>],
    declaring: Declaring,
) -> Result<BTreeMap<Key, u32>, AllocError>
    requires { AllStand list.now places.now }
    ensures { IfOk result (λ m. HoldsFirsts declaring list.now places.now places.now m) }
{
    let mut firsts = BTreeMap::new(alloc);
    for place in places {
        put_place(&mut firsts, list, place, declaring)?;
    }
    Ok(firsts)
}

/// Takes one place more into the first ones, if it declares in this way.
pub fn put_place(
    firsts: &mut BTreeMap<Key, u32>,
    list: &PlaceList<'_>,
    place: &PlaceEntry<'_>,
    declaring: Declaring,
) -> Result<(), AllocError>
    requires { Stands list.now place.now }
    ensures { OnOk result (TakesIn declaring list.now place.now firsts.old firsts.new) }
{
    if passes(declaring, list, place) {
        put_first(firsts, key_of(place), place.node)?;
    }
    Ok(())
}

/// Puts the node under the key, unless one is there.
pub fn put_first(firsts: &mut BTreeMap<Key, u32>, key: Key, node: u32) -> Result<(), AllocError>
    ensures { OnOk result (PutsFirst firsts.old firsts.new key node) }
{
    if !firsts.contains_key(&key) {
        firsts.insert(key, node)?;
    }
    Ok(())
}
