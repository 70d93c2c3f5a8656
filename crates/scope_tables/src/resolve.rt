//! What each place is bound to.

ghost use Rattle.std.specs.Prelude.{◌≡◌, List, IfOk};
ghost use Rattle.std.specs.List.{Contains};
ghost use Rattle.place_list.specs.TableViews.{place_in};
ghost use Rattle.place_list.specs.declared.tables.PlaceEntry.{PlaceEntry};
ghost use Rattle.scope_rules.specs.Bindings.{binding, bound, same_name, shadower};
ghost use Rattle.scope_tables.specs.DeclarationsAt.{AreDeclarations};
ghost use Rattle.scope_tables.specs.Reach.{AllBoundStand};
ghost use Rattle.scope_tables.specs.Views.{AllStand, Stands, bounds_of, places_of};

use crate::bound::BoundPlace;
use crate::declarations::Declarations;
use crate::sites::{declares, home, names_function, refers};
use place_list::{PlaceEntry, PlaceList};
use std::alloc::{AllocError, Global};

/// The places, each with its binding. Err is want of memory.
pub fn bound_places<'t>(
    alloc: Global,
    list: &PlaceList<'t>,
    declarations: &Declarations,
    places: &[PlaceEntry<'t>],
) -> Result<Vec<BoundPlace<'t>>, AllocError>
    requires stand { AllStand list.now places.now }
    requires declarations { AreDeclarations list.now places.now declarations.now }
    ensures bound { IfOk result (λ v. bounds_of list.now v.items ≡ bound same_name (places_of list.now places.now)) }
    ensures stand { IfOk result (λ v. AllBoundStand list.now v.items) }
{
    let mut bound = Vec::new(alloc);
    for place in places {
        bound.push(BoundPlace {
            place: *place,
            binding: binding(list, declarations, place),
        })?;
    }
    Ok(bound)
}

/// The binding of a place, among all those whose declarations these are.
pub fn binding(
    list: &PlaceList<'_>,
    declarations: &Declarations,
    place: &PlaceEntry<'_>,
) -> Option<u32>
    requires { Stands list.now place.now }
    ensures { (all : List PlaceEntry) → AreDeclarations list.now all declarations.now → Contains all place.now → result ≡ binding same_name (places_of list.now all) (place_in list.now place.now) }
{
    if refers(place) {
        return declarations.nearest_binder(list, place.setting.scope, place.name_number);
    }
    if names_function(place) {
        return Some(place.node);
    }
    if declares(place) {
        return declarations.plain_binder(home(place), place.name_number);
    }
    None
}

/// The shadower of a place, among all those whose declarations these are: of a function-name what its home
/// declares under its name otherwise.
pub fn shadower(
    list: &PlaceList<'_>,
    declarations: &Declarations,
    place: &PlaceEntry<'_>,
) -> Option<u32>
    requires { Stands list.now place.now }
    ensures { (all : List PlaceEntry) → AreDeclarations list.now all declarations.now → Contains all place.now → result ≡ shadower same_name (places_of list.now all) (place_in list.now place.now) }
{
    if names_function(place) {
        declarations.plain_binder(home(place), place.name_number)
    } else {
        None
    }
}
