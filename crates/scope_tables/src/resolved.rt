//! What is found out of a list of places: declarations, bindings and faults.

ghost use Rattle.std.specs.Prelude.{◌≡◌, IfOk, map};
ghost use Rattle.scope_rules.specs.Bindings.{bound, same_name};
ghost use Rattle.scope_tables.specs.Resolving.{AreResolved};
ghost use Rattle.scope_tables.specs.Views.{AllStand, places_of};

use crate::bound::BoundPlace;
use crate::declarations::Declarations;
use crate::faults::Faults;
use crate::place_faults::place_faults;
use crate::resolve::bound_places;
use place_list::{PlaceEntry, PlaceList};
use std::alloc::{AllocError, Global};

/// What is found out of a list of places.
#[derive(Drop)]
pub struct Resolved {
    pub declarations: Declarations,
    /// Of each place its binding, by the number of its node.
    pub bindings: Vec<Option<u32>>,
    /// Of each place its faults, and which of them some place has.
    pub place_faults: Vec<Faults>,
    pub faults: Faults,
}

/// What is found out of all places of the list. Err is want of memory.
pub fn resolve<'t>(
    alloc: Global,
    list: &PlaceList<'t>,
    places: &[PlaceEntry<'t>],
) -> Result<Resolved, AllocError>
    requires { AllStand list.now places.now }
    ensures { IfOk result (λ r. AreResolved list.now places.now r) }
{
    let declarations = Declarations::new(alloc, list, places)?;
    let bound = bound_places(alloc, list, &declarations, places)?;
    let place_faults = place_faults(alloc, list, &declarations, bound.as_slice(), places)?;
    let faults = Faults::of_any(place_faults.as_slice());
    let bindings = bindings_of(alloc, bound.as_slice())?;
    Ok(Resolved {
        declarations,
        bindings,
        place_faults,
        faults,
    })
}

// The bindings alone.
fn bindings_of(alloc: Global, places: &[BoundPlace<'_>]) -> Result<Vec<Option<u32>>, AllocError>
    ensures { IfOk result (λ v. v.items ≡ map (λ b. b.binding) places.now) }
{
    let mut bindings = Vec::new(alloc);
    for place in places {
        bindings.push(place.binding)?;
    }
    Ok(bindings)
}
