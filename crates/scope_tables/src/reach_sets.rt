//! Which bindings lie in the body of a scope, and which are declared in its parameters or catch pattern.

ghost use Rattle.std.specs.Prelude.{◌≡◌, ◌<◌, ℕ, not, ◌&&◌, IfOk, OnOk, length};
ghost use Rattle.place_list.specs.Bounds.{IsBelow, IsBounded};
ghost use Rattle.place_list.specs.TableViews.{list_view};
ghost use Rattle.place_list.specs.declared.tables.PlaceList.{PlaceList};
ghost use Rattle.scope_rules.specs.Bindings.{is_binding, is_node};
ghost use Rattle.scope_rules.specs.Homes.{declares, names_function};
ghost use Rattle.scope_tables.specs.Reach.{AllBoundStand, HasBodies, HasHeads, PutsHeads, body_scope};
ghost use Rattle.scope_tables.specs.Views.{bound_of};

use crate::bound::BoundPlace;
use crate::key::NodeInScope;
use crate::sites::{declares, home, names_function};
use place_list::PlaceList;
use std::alloc::{AllocError, Global};
use std::collections::BTreeSet;

/// The bindings by the scopes in which they lie, function-names aside. Err is want of memory.
pub fn bodies_of(
    alloc: Global,
    list: &PlaceList<'_>,
    places: &[BoundPlace<'_>],
) -> Result<BTreeSet<NodeInScope>, AllocError>
    requires { AllBoundStand list.now places.now }
    ensures { IfOk result (λ s. HasBodies list.now places.now s) }
{
    let mut bodies = BTreeSet::new(alloc);
    for place in places {
        if let Some(scope) = body_scope(place) {
            let node = place.place.node;
            bodies.insert(NodeInScope { scope, node })?;
        }
    }
    Ok(bodies)
}

// The scope in which the place lies, if it is its own binding, and no function-name.
#[tactic(auto, unfolding(crate::specs::Reach::body_scope))]
fn body_scope(place: &BoundPlace<'_>) -> Option<u32>
    ensures { (l : PlaceList) → result ≡ body_scope l place.now }
{
    if is_plain_binding(place) {
        home(&place.place)
    } else {
        None
    }
}

// Whether the place is its own binding, and no function-name.
fn is_plain_binding(place: &BoundPlace<'_>) -> bool
    ensures { (l : PlaceList) → result ≡ (is_binding (bound_of l place.now) && not (names_function (bound_of l place.now).place.site)) }
{
    is_own_binding(place) && !names_function(&place.place)
}

// Whether the place declares, and is its own binding.
fn is_own_binding(place: &BoundPlace<'_>) -> bool
    ensures { (l : PlaceList) → result ≡ is_binding (bound_of l place.now) }
{
    match declared_binding(place) {
        Some(node) => node == place.place.node,
        None => false,
    }
}

// The binding of a place that declares.
fn declared_binding(place: &BoundPlace<'_>) -> Option<u32>
    ensures { (l : PlaceList) (n : ℕ) → is_node result n ≡ (declares (bound_of l place.now).place.site && is_node (bound_of l place.now).binding n) }
{
    if declares(&place.place) {
        place.binding
    } else {
        None
    }
}

/// The bindings by the scopes in whose parameters or catch pattern a place of them declares. Err is want of memory.
pub fn heads_of(
    alloc: Global,
    list: &PlaceList<'_>,
    places: &[BoundPlace<'_>],
) -> Result<BTreeSet<NodeInScope>, AllocError>
    requires { AllBoundStand list.now places.now }
    ensures { IfOk result (λ s. HasHeads list.now places.now s) }
{
    let mut heads = BTreeSet::new(alloc);
    for place in places {
        if let Some(node) = declared_binding(place) {
            put_heads(&mut heads, list, place.place.setting.head, node)?;
        }
    }
    Ok(heads)
}

// Puts the node under each of the scopes along the heads from this one.
fn put_heads(
    set: &mut BTreeSet<NodeInScope>,
    list: &PlaceList<'_>,
    head: Option<u32>,
    node: u32,
) -> Result<(), AllocError>
    requires bounded { IsBounded (list_view list.now) }
    requires head { IsBelow (length list.now.heads.items) head }
    ensures { OnOk result (PutsHeads list.now set.old head node set.new) }
{
    let mut at = head;
    while let Some(number) = at {
        let entry = list.head(number);
        set.insert(NodeInScope {
            scope: entry.scope,
            node,
        })?;
        at = entry.parent;
    }
    Ok(())
}
