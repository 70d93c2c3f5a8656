//! Bindings whose name a scope further out declares too.

ghost use Rattle.std.specs.Prelude.{◌≡◌};
ghost use Rattle.std.specs.List.{Contains};
ghost use Rattle.place_list.specs.TableViews.{place_in, places_in};
ghost use Rattle.scope_report.specs.Rules as spec;
ghost use Rattle.scope_tables.specs.Views.{Stands, bound_of};
ghost use Rattle.scope_tables.specs.WholeTree.{AreTables};

use crate::outer::outer_scope;
use place_list::PlaceEntry;
use scope_tables::sites::{home, is_binding};
use scope_tables::{BoundPlace, ScopeTables};

/// Whether the place is one.
pub fn is_shadowing(tables: &ScopeTables<'_>, place: &BoundPlace<'_>) -> bool
    requires tables { AreTables tables.now }
    requires listed { Contains tables.now.list.places.items place.now.place }
    requires stands { Stands tables.now.list place.now.place }
    ensures { result ≡ spec.is_shadowing (places_in tables.now.list) (bound_of tables.now.list place.now) }
{
    is_binding(place) && is_declared_outside(tables, &place.place)
}

// Whether a scope outside the one in which it declares has its name.
fn is_declared_outside(tables: &ScopeTables<'_>, place: &PlaceEntry<'_>) -> bool
    requires tables { AreTables tables.now }
    requires listed { Contains tables.now.list.places.items place.now }
    requires stands { Stands tables.now.list place.now }
    ensures { result ≡ spec.is_declared_outside (places_in tables.now.list) (place_in tables.now.list place.now) }
{
    let outer = outer_scope(&tables.list, home(place));
    let declarations = &tables.resolved.declarations;
    declarations
        .nearest_binder(&tables.list, outer, place.name_number)
        .is_some()
}
