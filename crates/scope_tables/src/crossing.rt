//! Whether a `var` crosses a declaration beside which it may not be.

ghost use Rattle.std.specs.Prelude.{◌≡◌, List, Some};
ghost use Rattle.std.specs.List.{Contains};
ghost use Rattle.place_list.specs.Bounds.{IsBounded};
ghost use Rattle.place_list.specs.TableViews.{list_view, place_in, scope_at};
ghost use Rattle.place_list.specs.declared.tables.PlaceEntry.{PlaceEntry};
ghost use Rattle.scope_rules.specs.Bindings.{same_name};
ghost use Rattle.scope_rules.specs.Faults.{crosses};
ghost use Rattle.scope_tables.specs.DeclarationsAt.{AreDeclarations, single_at};
ghost use Rattle.scope_tables.specs.Nearest.{any_before};
ghost use Rattle.scope_tables.specs.Views.{IsScope, Stands, places_of};

use crate::declarations::Declarations;
use crate::sites::{declares_var, home};
use place_list::{PlaceEntry, PlaceList, same_number};

/// Whether the place is a `var` that crosses, on its way to its home, a scope that declares its name otherwise,
/// among all those whose declarations these are.
pub fn crosses(list: &PlaceList<'_>, declarations: &Declarations, place: &PlaceEntry<'_>) -> bool
    requires { Stands list.now place.now }
    ensures { (all : List PlaceEntry) → AreDeclarations list.now all declarations.now → Contains all place.now → result ≡ crosses same_name (places_of list.now all) (place_in list.now place.now) }
{
    declares_var(place)
        && is_single_below(
            list,
            declarations,
            place.setting.scope,
            home(place),
            place.name_number,
        )
}

// Whether a scope from this one outwards, inside the home, declares the name so that no other may.
fn is_single_below(
    list: &PlaceList<'_>,
    declarations: &Declarations,
    scope: Option<u32>,
    home: Option<u32>,
    name: u32,
) -> bool
    requires bounded { IsBounded (list_view list.now) }
    requires scope { IsScope list.now scope }
    ensures { result ≡ any_before (λ s. single_at declarations.now (Some s) name) home (scope_at list.now scope) }
{
    let mut at = scope;
    while let Some(s) = at {
        if same_number(at, home) {
            return false;
        }
        if declarations.is_single(at, name) {
            return true;
        }
        at = list.parent(s);
    }
    false
}
