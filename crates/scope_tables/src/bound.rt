//! The places of a tree, each with what it is bound to.

ghost use Rattle.std.specs.Prelude.{◌≡◌, ◌<◌, None, Some, get_or, length, slice_get};
ghost use Rattle.std.specs.List.{Contains};
ghost use Rattle.place_list.specs.TableViews.{place_in, places_in};
ghost use Rattle.scope_tables.specs.Views.{Stands, bound_of};
ghost use Rattle.scope_rules.specs.Bindings.{bound, same_name};
ghost use Rattle.scope_tables.specs.WholeTree.{AreTables};

use crate::tables::ScopeTables;
use place_list::PlaceEntry;

/// A place with its binding, by the number of its node.
#[derive(Clone, Copy)]
pub struct BoundPlace<'t> {
    pub place: PlaceEntry<'t>,
    pub binding: Option<u32>,
}

/// The i-th place.
pub fn bound_place<'t>(tables: &ScopeTables<'t>, i: usize) -> BoundPlace<'t>
    requires tables { AreTables tables.now }
    requires index { i < length tables.now.list.places.items }
    ensures place { slice_get (places_in tables.now.list) i ≡ Some (place_in tables.now.list result.place) }
    ensures bound { slice_get (bound same_name (places_in tables.now.list)) i ≡ Some (bound_of tables.now.list result) }
    ensures listed { Contains tables.now.list.places.items result.place }
    ensures stands { Stands tables.now.list result.place }
{
    let place = tables.list.places[i];
    let bindings = tables.bindings();
    BoundPlace {
        place,
        binding: binding_at(bindings, i),
    }
}

// The i-th binding.
fn binding_at(bindings: &[Option<u32>], i: usize) -> Option<u32>
    requires { i < length bindings.now }
    ensures { result ≡ get_or bindings.now i None }
{
    bindings[i]
}
