//! The place of a node, by binary search: nodes rise along the places.

ghost use Rattle.std.specs.Prelude.{◌≡◌, IfSome, Some, is_some, slice_get};
ghost use Rattle.scope_rules.specs.Evals.{contains};
ghost use Rattle.scope_tables.specs.Views.{nodes_of};
ghost use Rattle.tree_places.specs.Laws.{RiseFrom};

use place_list::PlaceEntry;

/// The index of the place that has this node, from 0; None where none has it.
pub fn index_of_node(places: &[PlaceEntry<'_>], node: u32) -> Option<usize>
    requires { RiseFrom 0 (nodes_of places.now) }
    ensures found { IfSome result (λ i. slice_get (nodes_of places.now) i ≡ Some node) }
    ensures exactly { is_some result ≡ contains (nodes_of places.now) node }
{
    match places.binary_search_by_key(&node, |place| place.node) {
        Ok(index) => Some(index),
        Err(_) => None,
    }
}
