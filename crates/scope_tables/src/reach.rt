//! Whether a parameter or catch pattern reaches a declaration of the body.

ghost use Rattle.std.specs.Prelude.{◌≡◌, ◌<◌, List, length};
ghost use Rattle.std.specs.List.{list_any};
ghost use Rattle.place_list.specs.Bounds.{IsBelow, IsBounded};
ghost use Rattle.place_list.specs.TableViews.{heads_at, list_view};
ghost use Rattle.scope_rules.specs.Faults.{reaches_body};
ghost use Rattle.scope_tables.specs.Reach.{HasBodies, HasHeads, is_open_body};
ghost use Rattle.scope_tables.specs.Views.{Stands, bound_of, bounds_of};
ghost use Rattle.scope_tables.specs.declared.bound.BoundPlace.{BoundPlace};

use crate::bound::BoundPlace;
use crate::key::NodeInScope;
use crate::sites::refers;
use place_list::PlaceList;
use std::collections::BTreeSet;

/// Whether the place does, among all those of these sets.
pub fn reaches_body(
    list: &PlaceList<'_>,
    bodies: &BTreeSet<NodeInScope>,
    heads: &BTreeSet<NodeInScope>,
    place: &BoundPlace<'_>,
) -> bool
    requires { Stands list.now place.now.place }
    ensures { (all : List BoundPlace) → HasBodies list.now all bodies.now → HasHeads list.now all heads.now → result ≡ reaches_body (bounds_of list.now all) (bound_of list.now place.now) }
{
    if !refers(&place.place) {
        return false;
    }
    match place.binding {
        Some(node) => is_any_open(list, bodies, heads, place.place.setting.head, node),
        None => false,
    }
}

// Whether the node lies in the body alone of a scope along the heads from this one.
fn is_any_open(
    list: &PlaceList<'_>,
    bodies: &BTreeSet<NodeInScope>,
    heads: &BTreeSet<NodeInScope>,
    head: Option<u32>,
    node: u32,
) -> bool
    requires bounded { IsBounded (list_view list.now) }
    requires head { IsBelow (length list.now.heads.items) head }
    ensures { result ≡ list_any (is_open_body bodies.now heads.now node) (heads_at list.now head) }
{
    let mut at = head;
    while let Some(number) = at {
        let entry = list.head(number);
        let key = NodeInScope {
            scope: entry.scope,
            node,
        };
        if is_open(bodies, heads, key) {
            return true;
        }
        at = entry.parent;
    }
    false
}

// Whether it lies in the body alone of this scope.
fn is_open(bodies: &BTreeSet<NodeInScope>, heads: &BTreeSet<NodeInScope>, key: NodeInScope) -> bool
    ensures { result ≡ is_open_body bodies.now heads.now key.node key.scope }
{
    bodies.contains(&key) && !heads.contains(&key)
}
