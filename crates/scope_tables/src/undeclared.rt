//! Whether a private name is used that no class body around it declares.

ghost use Rattle.std.specs.Prelude.{◌≡◌, List};
ghost use Rattle.std.specs.List.{Contains};
ghost use Rattle.place_list.specs.TableViews.{place_in};
ghost use Rattle.place_list.specs.declared.tables.PlaceEntry.{PlaceEntry};
ghost use Rattle.scope_rules.specs.Bindings.{same_name};
ghost use Rattle.scope_rules.specs.Faults.{is_undeclared};
ghost use Rattle.scope_tables.specs.Private.{HoldsPrivate};
ghost use Rattle.scope_tables.specs.Views.{Stands, places_of};

use crate::key::Key;
use crate::private_names::private_binding;
use place_list::{PlaceEntry, PlaceList};
use std::collections::BTreeMap;

/// Whether the place uses one.
pub fn is_undeclared(
    list: &PlaceList<'_>,
    declarations: &BTreeMap<Key, u32>,
    place: &PlaceEntry<'_>,
) -> bool
    requires { Stands list.now place.now }
    ensures { (all : List PlaceEntry) → HoldsPrivate list.now all all declarations.now → Contains all place.now → result ≡ is_undeclared same_name (places_of list.now all) (place_in list.now place.now) }
{
    place.private && private_binding(list, declarations, place).is_none()
}
