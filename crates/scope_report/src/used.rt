//! The bindings that a reference has.

ghost use Rattle.std.specs.Prelude.{◌≡◌, ℕ, IfOk};
ghost use Rattle.place_list.specs.TableViews.{places_in};
ghost use Rattle.place_list.specs.declared.tables.PlaceList.{PlaceList};
ghost use Rattle.scope_report.specs.Rules.{uses};
ghost use Rattle.scope_tables.specs.Sets.{HasMarked};
ghost use Rattle.scope_tables.specs.Views.{bound_of};
ghost use Rattle.scope_rules.specs.Bindings.{bound, is_node, same_name};
ghost use Rattle.scope_tables.specs.WholeTree.{AreTables};

use scope_tables::sets::put;
use scope_tables::sites::refers;
use scope_tables::{BoundPlace, ScopeTables, bound_place};
use std::alloc::{AllocError, Global};
use std::collections::BTreeSet;

/// Those of a tree. Err is want of memory.
pub fn used_bindings(alloc: Global, tables: &ScopeTables<'_>) -> Result<BTreeSet<u32>, AllocError>
    requires { AreTables tables.now }
    ensures { IfOk result (λ s. HasMarked uses (bound same_name (places_in tables.now.list)) s) }
{
    let mut used = BTreeSet::new(alloc);
    for i in 0..tables.list.places.len() {
        let place = bound_place(tables, i);
        put(&mut used, used_binding(&place))?;
    }
    Ok(used)
}

// The binding of a reference.
fn used_binding(place: &BoundPlace<'_>) -> Option<u32>
    ensures { (l : PlaceList) (n : ℕ) → is_node result n ≡ uses n (bound_of l place.now) }
{
    if refers(&place.place) {
        place.binding
    } else {
        None
    }
}
