//! Which faults each place has.

ghost use Rattle.std.specs.Prelude.{◌≡◌, IfOk, List};
ghost use Rattle.std.specs.List.{Contains};
ghost use Rattle.place_list.specs.TableViews.{place_in};
ghost use Rattle.place_list.specs.declared.tables.PlaceEntry.{PlaceEntry};
ghost use Rattle.scope_rules.specs.Bindings.{binding, bound, same_name};
ghost use Rattle.scope_tables.specs.DeclarationsAt.{AreDeclarations};
ghost use Rattle.scope_tables.specs.EarlierPlaces.{HoldsEarlier};
ghost use Rattle.scope_tables.specs.FaultsOf.{faults_of, place_faults};
ghost use Rattle.scope_tables.specs.FaultFinding.{AreFaultTables};
ghost use Rattle.scope_tables.specs.Reach.{AllBoundStand};
ghost use Rattle.scope_tables.specs.Views.{AllStand, Stands, bounds_of, places_of};
ghost use Rattle.scope_tables.specs.declared.bound.BoundPlace.{BoundPlace};

use crate::bound::BoundPlace;
use crate::crossing::crosses;
use crate::declarations::Declarations;
use crate::faults::Faults;
use crate::key::{Key, NodeInScope};
use crate::private_names::private_declarations;
use crate::reach::reaches_body;
use crate::reach_sets::{bodies_of, heads_of};
use crate::redeclared::Earlier;
use crate::sloppy::is_sloppy_function;
use crate::undeclared::is_undeclared;
use place_list::{PlaceEntry, PlaceList};
use std::alloc::{AllocError, Global};
use std::collections::{BTreeMap, BTreeSet};

/// What faults are found by: where private names are declared, and of the bindings which lie in the body of a
/// scope and which are declared in its parameters or catch pattern.
#[derive(Drop)]
pub struct FaultTables {
    private: BTreeMap<Key, u32>,
    bodies: BTreeSet<NodeInScope>,
    heads: BTreeSet<NodeInScope>,
}

impl FaultTables {
    /// That of these places. Err is want of memory.
    pub fn new(
        alloc: Global,
        list: &PlaceList<'_>,
        bound_places: &[BoundPlace<'_>],
        places: &[PlaceEntry<'_>],
    ) -> Result<Self, AllocError>
        requires stand { AllStand list.now places.now }
        requires bound_stand { AllBoundStand list.now bound_places.now }
        ensures { IfOk result (λ t. AreFaultTables list.now bound_places.now places.now t) }
    {
        Ok(FaultTables {
            private: private_declarations(alloc, list, places)?,
            bodies: bodies_of(alloc, list, bound_places)?,
            heads: heads_of(alloc, list, bound_places)?,
        })
    }
}

/// The faults of each of these places, given what they declare and are bound to. Err is want of memory.
pub fn place_faults(
    alloc: Global,
    list: &PlaceList<'_>,
    declarations: &Declarations,
    bound_places: &[BoundPlace<'_>],
    places: &[PlaceEntry<'_>],
) -> Result<Vec<Faults>, AllocError>
    requires stand { AllStand list.now places.now }
    requires bound_stand { AllBoundStand list.now bound_places.now }
    requires declarations { AreDeclarations list.now places.now declarations.now }
    requires bound { bounds_of list.now bound_places.now ≡ bound same_name (places_of list.now places.now) }
    ensures { IfOk result (λ v. v.items ≡ place_faults (places_of list.now places.now)) }
{
    let tables = FaultTables::new(alloc, list, bound_places, places)?;
    let mut earlier = Earlier::new(alloc);
    let mut found = Vec::new(alloc);
    for i in 0..places.len() {
        let entry = places[i];
        let bound = bound_places[i];
        let place = BoundPlace {
            place: entry,
            binding: bound.binding,
        };
        found.push(faults_of(list, declarations, &tables, &earlier, &place))?;
        earlier.put(list, &entry)?;
    }
    Ok(found)
}

// The faults of a place, among all those of these tables, after those so far.
fn faults_of(
    list: &PlaceList<'_>,
    declarations: &Declarations,
    tables: &FaultTables,
    earlier: &Earlier,
    place: &BoundPlace<'_>,
) -> Faults
    requires { Stands list.now place.now.place }
    ensures { (bs : List BoundPlace) (all some : List PlaceEntry) → Contains all place.now.place → AreDeclarations list.now all declarations.now → AreFaultTables list.now bs all tables.now → bounds_of list.now bs ≡ bound same_name (places_of list.now all) → HoldsEarlier list.now all some earlier.now → place.now.binding ≡ binding same_name (places_of list.now all) (place_in list.now place.now.place) → result ≡ faults_of (places_of list.now all) (places_of list.now some) (place_in list.now place.now.place) }
{
    Faults {
        redeclaration: earlier.is_redeclaration(list, &place.place),
        crossing: crosses(list, declarations, &place.place),
        sloppy_function: is_sloppy_function(list, &place.place),
        undeclared: is_undeclared(list, &tables.private, &place.place),
        reach: reaches_body(list, &tables.bodies, &tables.heads, place),
    }
}
